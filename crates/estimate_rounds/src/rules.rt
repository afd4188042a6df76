// What a check finds, and the rules that a fix and a displacement share.
ghost use Rattle.std.specs.Prelude.{◌≡◌};
ghost use Rattle.numeric.specs.Rules.{ruled};
ghost use Rattle.estimate_rounds.specs.Rules.{row_rules};

use numeric::refusal::Refusal;

// Checks rules 8 and 9.
pub fn check_rows(rows: usize, slots: usize) -> Result<(), Refusal>
    ensures { result ≡ ruled Err (row_rules rows slots) (Ok tt) }
{
    if rows < 4 {
        return Err(Refusal::TooFewRows);
    }
    if rows - 4 < slots {
        return Err(Refusal::TooFewRows);
    }
    if 6 < slots {
        return Err(Refusal::TooManySlots);
    }
    Ok(())
}
