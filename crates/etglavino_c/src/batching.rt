// Sheets written back to back, for C: a count of octets is returned, and no refusal's number.
ghost use Rattle.std.specs.Prelude.{◌≡◌};
ghost use Rattle.batch.specs.Runs.{first_sheet};

#[unsafe(no_mangle)]
pub extern "C" fn etg_split(run: &[u8]) -> usize
    ensures { result ≡ first_sheet run.now }
{
    etglavino::split(run)
}
