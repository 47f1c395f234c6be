// The lists of a text run.
ghost use Rattle.std.specs.Prelude.{◌≡◌, ◌<◌, length, replicate};
ghost use Rattle.text_runs.specs.TextRun.{most_entries};

// Room for the list of a text's entries: 60,000, and the one that is 12 whatever it says.
pub fn full_list() -> [u64; 60001]
    ensures { most_entries < length result }
{
    [0; 60001]
}

// Room for the entries of a short text: the full list costs sixty times as much to blank.
pub fn short_list() -> [u64; 1024]
    ensures { length result ≡ 1024 }
{
    [0; 1024]
}

// "The value k has k in all W words": as many as W may be.
pub fn repeated(k: u64) -> [u64; 64]
    ensures { result ≡ replicate 64 k }
{
    [k; 64]
}
