//! What a test has to find, row by row.
ghost use Rattle.std.specs.Prelude.{◌≡◌, ◌↔◌, true, All, IsOk};

use std::test::Fail;

/// Fails with the text of the first row that doesn't hold.
///
/// # Errors
/// That text, where there is such a row.
pub fn hold(rows: &[(&str, bool)]) -> Result<(), Fail>
    ensures { IsOk result ↔ All (λ row. row.1 ≡ true) rows.now }
{
    for (text, holds) in rows {
        if !holds {
            return Err(Fail::new(*text));
        }
    }
    Ok(())
}
