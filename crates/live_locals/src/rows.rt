//! Rows of marks: of each local, whether it is live.

ghost use Rattle.std.specs.Prelude.{◌≡◌};
ghost use Rattle.live_locals.specs.Live.{is_live_by, row_at};

use types::Sequence;

/// Whether a local is live by a row.
pub fn is_live(row: &[bool], local: usize) -> bool
    ensures { result ≡ is_live_by row.now local }
{
    match row.get(local) {
        Some(live) => *live,
        None => true,
    }
}

/// The row of a place. Where there is none, all is live.
pub fn row_at(rows: &[Sequence<bool>], place: usize) -> &[bool]
    ensures { result.now ≡ row_at rows.now place }
{
    match rows.get(place) {
        Some(row) => row.as_slice(),
        None => &[],
    }
}
