// Sheets written back to back (S 12.3): where the first of them ends.
#![tactic(auto)]

ghost use Rattle.std.specs.Prelude.{◌≡◌};
ghost use Rattle.batch.specs.Runs.{first_sheet};

use canonical::Item;

// S 12.3: how many octets of a run are its first sheet, of any size and depth; 0 where none begins. Only these octets are looked at,
// and of a string's data none.
pub fn split(run: &[u8]) -> usize
    ensures { result ≡ first_sheet run.now }
{
    let mut at: usize = 0;
    let mut opened: usize = 0;
    while at < run.len() {
        match canonical::lexeme_at(run, at) {
            Some(Item::Open) => {
                opened += 1;
                at += 1;
            }
            Some(Item::Close) => {
                if opened == 0 {
                    return 0;
                }
                if opened == 1 {
                    return at + 1;
                }
                opened -= 1;
                at += 1;
            }
            Some(Item::Plain { start: _, end }) => {
                if opened == 0 {
                    return end;
                }
                at = end;
            }
            Some(
                Item::Hinted {
                    hint_start: _,
                    hint_end: _,
                    start: _,
                    end,
                },
            ) => {
                if opened == 0 {
                    return end;
                }
                at = end;
            }
            None => return 0,
        }
    }
    0
}
