// N, W and R once rows 1, 2 and 23 have let them through.
ghost use Rattle.std.specs.Prelude.{◌≤◌};

#[derive(Clone, Copy)]
pub struct Sizes {
    pub n: usize,
    pub w: usize,
    pub r: usize,
    // what follows from them fits a machine number
    pub ghost most: { (n ≤ 16) × ((w ≤ 64) × (r ≤ 8)) },
}
