// The view of a written value for C (01, "The view").
ghost use Rattle.std.specs.Prelude.{◌≡◌};
ghost use Rattle.besklaun.specs.Views.{view_told};

// A part of one of the two slices that are lent: the number of the refusal, 0 for none; whether the part lies in the list
// of the values written, or in the set-up value; the word with which it begins, and how many words it has.
#[repr(C)]
#[derive(Clone, Copy)]
pub struct View {
    pub number: u8,
    pub written: bool,
    pub start: usize,
    pub count: usize,
}

// Where the words of success k stand: in the set-up value for 0, else in the list; an empty part of the set-up value at
// a refusal.
// Wrong programs that this rules out: one that counts the successes in the list from 0, so that 1 shows the second.
#[tactic(auto, using(crate::proofs::ViewPlaces::place_laws))]
pub fn besklaun_view(w: usize, value: &[u64], written: &[u64], k: usize) -> View
    ensures { result ≡ view_told w value.now written.now k }
{
    if let Err(refusal) = viewing::view_refusal(w, value, written, k) {
        return View {
            number: refusal.number(),
            written: false,
            start: 0,
            count: 0,
        };
    }
    if k == 0 {
        return View {
            number: 0,
            written: false,
            start: 0,
            count: w,
        };
    }
    View {
        number: 0,
        written: true,
        start: (k - 1) * w,
        count: w,
    }
}
