// The writer's second pass, over a record table that the first has accepted.
ghost use Rattle.std.specs.Prelude.{List, ◌≡◌, length};
ghost use Rattle.std.proofs.lemmas.List.Edits.{sets};
ghost use Rattle.writing_emit.specs.Rows.{Accepted};
ghost use Rattle.layout.specs.Bytes.{All, flat};
ghost use Rattle.layout.specs.Layout.Encode.{encode_record};
ghost use Rattle.layout.specs.Sheet.{Record};
ghost use Rattle.layout.specs.Writing.Tables.{table as lists, flatten};
ghost use Rattle.laws.proofs.Writing.Records.{NearRecord};

use crate::lists::Lists;
use fields::cursors::Cursor;

// Writes the records of the table to out, from w on.
pub fn emit(table: &[u64], elements: &[u64], bytes: &[u8], records: usize, out: &mut [u8], w: usize)
    requires { Accepted table.now elements.now bytes.now records w (length out.old) }
    ensures { (rs : List Record) → All NearRecord rs → flatten rs ≡ lists table.now elements.now bytes.now
        → out.new ≡ sets out.old w (flat encode_record rs) }
{
    let lists = Lists {
        numbers: table,
        elements,
        bytes,
    };
    let start = Cursor {
        place: w,
        numbers: 0,
        elements: 0,
        bytes: 0,
    };
    lists.emit_records(records, start, out);
}
