//! The JSON body of the response to a faulty point list. A point list is CSV text that lists the
//! Modbus registers of a device that the program polls.
ghost use Rattle.std.specs.Prelude.{◌≡◌, ◌≤◌, ◌+◌, ◌*◌, ◌++◌, length, codes, decimal, All};
ghost use Rattle.point_list.specs.Faults.{fault_number};
ghost use Rattle.office_http.specs.Messages.Commands.Few.{AreFew};
ghost use Rattle.office_http.specs.Messages.Faults.{faults_text, more_rows};

use crate::messages::sending::Text;
use point_list::FaultyRow;

// Appends to a JSON text: the text `key`, the number of a faulty row, and the numeric code of the
// row's fault.
fn push_row(text: &mut Text, key: &[u8], faulty: FaultyRow)
    requires room { length text.old + length key.now + 60 ≤ 8192 }
    requires low { faulty.row ≤ 514 }
    ensures bytes { text.new ≡ text.old ++ key.now ++ decimal faulty.row ++ codes ","
        ++ decimal (fault_number faulty.fault) ++ codes "]" }
    ensures size { length text.new ≤ length text.old + length key.now + 10 }
{
    text.push_number(key, faulty.row as u16);
    text.push_number(b",", faulty.fault.number());
    text.push(b"]");
}

// Appends faulty rows to a JSON text, each with a comma before it: the row's number and the numeric
// code of its fault.
fn push_rows(text: &mut Text, rows: &[FaultyRow])
    requires room { length text.old + 12 * length rows.now ≤ 8000 }
    requires low { All (λ faulty. faulty.row ≤ 514) rows.now }
    ensures bytes { text.new ≡ text.old ++ more_rows rows.now }
    ensures size { length text.new ≤ length text.old + 12 * length rows.now }
{
    for faulty in rows {
        push_row(text, b",[", *faulty);
    }
}

/// Formats the body of the response to a point list with faulty rows: the number of each faulty row
/// with the least numeric code among the row's faults.
pub fn faults_body(rows: &[FaultyRow]) -> Text
    requires { AreFew rows.now }
    ensures { result ≡ faults_text rows.now }
{
    let mut text = Text::new();
    text.push(b"{\"faults\":[");
    if let [first, rest @ ..] = rows {
        push_row(&mut text, b"[", *first);
        push_rows(&mut text, rest);
    }
    text.push(b"]}");
    text
}
