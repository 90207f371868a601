// The rows found so far: the first rows of the lent buffer, three numbers a row, those of earlier spans in the order of the list, and after them those of the present span as they were found.
ghost use Rattle.std.specs.Prelude.{◌+◌, ◌*◌, ◌≤◌, length};
ghost use Rattle.sweep.specs.Store.{row_of, Is, Held, Loose, Adds, Written};

// A row of the list.
#[derive(Clone, Copy)]
pub(crate) struct Row {
    pub begin: u64,
    pub end: u64,
    pub members: u64,
}

// A further row found no room.
#[derive(Clone, Copy, Debug, PartialEq, Eq)]
pub(crate) struct Full;

// Writes row i.
pub(crate) fn put(rows: &mut [u64], i: usize, row: Row)
    requires { 3 * i + 3 ≤ length rows.old }
    ensures { Written rows.old rows.new i (row_of row) }
{
    rows[3 * i] = row.begin;
    rows[3 * i + 1] = row.end;
    rows[3 * i + 2] = row.members;
}

// Puts the row, which is not there, behind the rows found, and answers how many there are then.
pub(crate) fn append(row: Row, rows: &mut [u64], count: usize) -> Result<usize, Full>
    requires { Loose rows.old count × (Held rows.old count (row_of row) → ⊥) }
    ensures { Adds (Is row) rows.old count rows.new result }
{
    if rows.len() / 3 <= count {
        return Err(Full);
    }
    put(rows, count, row);
    Ok(count + 1)
}
