// The record that a line makes.

ghost use Rattle.std.specs.Prelude.{◌≡◌, [], true, get_or};
ghost use Rattle.fields.specs.Numbers.{value};
ghost use Rattle.operations.specs.Promises.{MakePromise};
ghost use Rattle.make_lines.specs.Lines.{values_of, capped};
ghost use Rattle.make_lines.specs.Draft.{is_given, puts_of, given_in, LinePromise};

use crate::lines::{number_at, value_at};
use crate::slots::{fault_in, kind_in};
use figures::amounts::Amount;
use make_record::{make, refusing};
use make_values::{
    Address, AddressLines, AssignmentStart, FileStart, MessageLine, Opening, Payment, PaymentTexts,
    Specification,
};
use operations::Making;
use rules::Kind;

// The first three values of a transaction's record.
fn opening_in(line: &[u8]) -> Opening
    ensures service { result.service ≡ capped (value (get_or (values_of line.now) 1 [])) }
    ensures code { result.code ≡ capped (value (get_or (values_of line.now) 2 [])) }
    ensures number { result.number ≡ capped (value (get_or (values_of line.now) 3 [])) }
{
    Opening {
        service: number_at(line, 1),
        code: number_at(line, 2),
        number: number_at(line, 3),
    }
}

fn made10(line: &[u8], out: &mut [u8]) -> Making
    ensures { MakePromise Kind.R10 (puts_of Kind.R10 (given_in line.now)) out.old result out.new }
{
    let values = FileStart {
        sender: number_at(line, 1),
        number: number_at(line, 2),
    };
    make(&values, out)
}

fn made20(line: &[u8], out: &mut [u8]) -> Making
    ensures { MakePromise Kind.R20 (puts_of Kind.R20 (given_in line.now)) out.old result out.new }
{
    let service = number_at(line, 1);
    let agreement = number_at(line, 2);
    let assignment = number_at(line, 3);
    let account = number_at(line, 4);
    let values = AssignmentStart {
        service,
        agreement,
        assignment,
        account,
    };
    make(&values, out)
}

fn made30(line: &[u8], out: &mut [u8]) -> Making
    ensures { MakePromise Kind.R30 (puts_of Kind.R30 (given_in line.now)) out.old result out.new }
{
    let date = number_at(line, 4);
    let party = value_at(line, 5);
    let amount = Amount(number_at(line, 6));
    let kid = value_at(line, 7);
    let opening = opening_in(line);
    let values = Payment {
        opening,
        date,
        party,
        amount,
        kid,
    };
    make(&values, out)
}

fn made31(line: &[u8], out: &mut [u8]) -> Making
    ensures { MakePromise Kind.R31 (puts_of Kind.R31 (given_in line.now)) out.old result out.new }
{
    let text6 = value_at(line, 4);
    let text7 = value_at(line, 5);
    let text8 = value_at(line, 6);
    let opening = opening_in(line);
    let values = PaymentTexts {
        opening,
        text6,
        text7,
        text8,
    };
    make(&values, out)
}

fn made40(line: &[u8], out: &mut [u8]) -> Making
    ensures { MakePromise Kind.R40 (puts_of Kind.R40 (given_in line.now)) out.old result out.new }
{
    let name = value_at(line, 4);
    let postal = value_at(line, 5);
    let filler = value_at(line, 6);
    let area = value_at(line, 7);
    let opening = opening_in(line);
    let values = Address {
        opening,
        name,
        postal,
        filler,
        area,
    };
    make(&values, out)
}

fn made41(line: &[u8], out: &mut [u8]) -> Making
    ensures { MakePromise Kind.R41 (puts_of Kind.R41 (given_in line.now)) out.old result out.new }
{
    let address1 = value_at(line, 4);
    let address2 = value_at(line, 5);
    let country = value_at(line, 6);
    let opening = opening_in(line);
    let values = AddressLines {
        opening,
        address1,
        address2,
        country,
    };
    make(&values, out)
}

fn made49(line: &[u8], out: &mut [u8]) -> Making
    ensures { MakePromise Kind.R49 (puts_of Kind.R49 (given_in line.now)) out.old result out.new }
{
    let row = number_at(line, 4);
    let column = number_at(line, 5);
    let text = value_at(line, 6);
    let opening = opening_in(line);
    let values = MessageLine {
        opening,
        line: row,
        column,
        text,
    };
    make(&values, out)
}

fn made50(line: &[u8], out: &mut [u8]) -> Making
    ensures { MakePromise Kind.R50 (puts_of Kind.R50 (given_in line.now)) out.old result out.new }
{
    let kid = value_at(line, 4);
    let amount = Amount(number_at(line, 5));
    let opening = opening_in(line);
    let values = Specification {
        opening,
        kid,
        amount,
    };
    make(&values, out)
}

fn made_kind(kind: Kind, line: &[u8], out: &mut [u8]) -> Making
    requires { is_given kind ≡ true }
    ensures { MakePromise kind (puts_of kind (given_in line.now)) out.old result out.new }
{
    match kind {
        Kind::R10 => made10(line, out),
        Kind::R20 => made20(line, out),
        Kind::R30 => made30(line, out),
        Kind::R31 => made31(line, out),
        Kind::R40 => made40(line, out),
        Kind::R41 => made41(line, out),
        Kind::R49 => made49(line, out),
        Kind::R50 => made50(line, out),
        Kind::R88 | Kind::R89 | Kind::Other => Ok(()),
    }
}

// The record of a line over the start of a buffer, or why it is none.
pub fn make_line(line: &[u8], out: &mut [u8]) -> Making
    ensures { LinePromise line.now out.old result out.new }
{
    let kind = kind_in(line);
    refusing(fault_in(kind, line))?;
    made_kind(kind, line, out)
}
