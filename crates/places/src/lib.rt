// LL, SC, VL and the plain write on the shared places: Figure 1's single-word object, for X, Bank and Help (01,
// "Links").
// Kept: p.0 < 16 is a clause, as Moir's lent header holds a `ProcessNumber`, and lent memory may hold any number.

#![tactic(auto)]

ghost use Rattle.std.specs.Prelude.{◌≡◌, ◌<◌};
ghost use Rattle.model.specs.Places.{linked, link, ll_place, sc_place, write_place};

use llsc::ProcessNumber;
use model::Place;

// VL: whether p's link is set.
pub fn is_linked(links: u16, p: ProcessNumber) -> bool
    requires { p.0 < 16 }
    ensures { result ≡ linked links p }
{
    (links >> p.0) % 2 == 1
}

// The links with p's set.
#[tactic(auto, using(model::proofs::LinkLaws::added_below, model::proofs::LinkLaws::one_shifted))]
pub fn with_link(links: u16, p: ProcessNumber) -> u16
    requires { p.0 < 16 }
    ensures { result ≡ link links p }
{
    if is_linked(links, p) {
        return links;
    }
    links + (1u16 << p.0)
}

// LL by p.
pub fn ll<T: Copy>(place: Place<T>, p: ProcessNumber) -> Place<T>
    requires { p.0 < 16 }
    ensures { result ≡ ll_place place p }
{
    Place {
        links: with_link(place.links, p),
        ..place
    }
}

// SC by p: without p's link nothing is written.
pub fn sc<T: Copy>(place: Place<T>, p: ProcessNumber, content: T) -> Place<T>
    requires { p.0 < 16 }
    ensures { result ≡ sc_place place p content }
{
    if is_linked(place.links, p) {
        return write(content);
    }
    place
}

// The plain write of line 1. It clears all links: an SC by a helper that linked before must fail.
pub fn write<T: Copy>(content: T) -> Place<T>
    ensures { result ≡ write_place content }
{
    Place { content, links: 0 }
}
