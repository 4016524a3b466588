// The next record of a reader.

ghost use Rattle.std.specs.Prelude.{◌≡◌, true, false, IfOk, IfErr, OnErr};
ghost use Rattle.csv.specs.Reading.{error_kind, has_failed, stops_reader};
ghost use Rattle.csv.specs.Records.{fields_of};
ghost use Rattle.feed_csv.specs.Records.{Finds, IsPlain, rows_left};

use csv::{ByteRecord, Error, Reader};
use std::io::Read;

// Reads the next record into `row`, and says whether there was one.
#[tactic(auto, using(crate::proofs::Taking::finds_if_read))]
pub(crate) fn next_row<R: Read>(reader: &mut Reader<R>, row: &mut ByteRecord) -> Result<bool, Error>
    requires { IsPlain reader.old }
    ensures plain { IfOk result (λ found. found ≡ true → IsPlain reader.new) }
    ensures finds { let before = rows_left R.remaining reader.old in
        let after = rows_left R.remaining reader.new in
        IfOk result (λ found. Finds found before (fields_of row.new) after) }
    ensures works { IfOk result (λ found. has_failed reader.new ≡ false) }
    ensures fails { OnErr result (has_failed reader.new ≡ true) }
    ensures stops { IfErr result (λ error. stops_reader (error_kind error) ≡ true) }
{
    reader.read_byte_record(row)
}
