// The size limits of declares and claims.
ghost use Rattle.std.specs.Prelude.{◌≡◌, cond, None, Some};
ghost use Rattle.rules.specs.Refusal.{claim_limits, declare_limits, refusal, too_long, unfit_table};
ghost use Rattle.refusals.specs.Refusal.{text_number};
ghost use Rattle.session.specs.Limits.{limit_of};

use refusals::{Refusal, Text};

// The bytes that a text may have, and the nodes that a work table may have.
const TEXT_BYTES: usize = 4096;

const TABLE_NODES: usize = 32768;

// The refusal of a text that has too many bytes.
fn fit_text(bytes: &[u8], text: Text) -> Result<(), Refusal>
    ensures { limit_of result ≡ cond (too_long bytes.now) (Some (refusal 11 (text_number text) 0 0)) None }
{
    if bytes.len() > TEXT_BYTES {
        return Err(Refusal::TextTooLong(text));
    }
    Ok(())
}

// The refusal of a work table that has too many nodes, or fewer than two for each byte of its texts.
fn fit_table(table: usize, bytes: usize) -> Result<(), Refusal>
    ensures { limit_of result ≡ cond (unfit_table table bytes) (Some (refusal 12 0 0 0)) None }
{
    if table > TABLE_NODES || table / 2 < bytes {
        return Err(Refusal::UnfitTable);
    }
    Ok(())
}

// The refusal of a declare that does not keep its size limits.
pub(crate) fn declare_fault(text: &[u8], table: usize) -> Result<(), Refusal>
    ensures { limit_of result ≡ declare_limits text.now table }
{
    fit_text(text, Text::First)?;
    fit_table(table, text.len())
}

// The refusal of a claim that does not keep its size limits.
pub(crate) fn claim_fault(statement: &[u8], proof: &[u8], table: usize) -> Result<(), Refusal>
    ensures { limit_of result ≡ claim_limits statement.now proof.now table }
{
    fit_text(statement, Text::First)?;
    fit_text(proof, Text::Proof)?;
    fit_table(table, statement.len() + proof.len())
}
