// The version of the library, for programs in C and Rust that link it.
ghost use Rattle.std.specs.Prelude.{◌≡◌};
ghost use Rattle.besklaun.specs.Version.{version_number};

// Wrong programs that this rules out: one that tells another version than the header that it was released with.
pub fn besklaun_version() -> u32
    ensures { result ≡ version_number }
{
    200
}
