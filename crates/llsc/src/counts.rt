// N and W once rows 1 and 2 have let them through, as far as what follows from them has to fit a machine number: two
// types, so that what needs N alone asks nothing of W.
ghost use Rattle.std.specs.Prelude.{◌≤◌};

// N.
#[derive(Clone, Copy)]
pub struct Processes {
    pub n: usize,
    pub ghost most: { n ≤ 16 },
}

// W.
#[derive(Clone, Copy)]
pub struct Width {
    pub w: usize,
    pub ghost most: { w ≤ 64 },
}
