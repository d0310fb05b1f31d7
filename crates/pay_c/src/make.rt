// Records from the till for programs in C or Rust. A type of field 3 is `code` here, since `type` is a word of the language.

ghost use Rattle.operations.specs.Making.{made10, made20, made30, made31, made40, made41, made49, made50};
ghost use Rattle.operations.specs.Promises.{MakeNumbers};

use super::tell_made;
use figures::amounts::Amount;
use make_record::Ruled;
use make_values::{
    Address, AddressLines, AssignmentStart, FileStart, MessageLine, Opening, Payment, PaymentTexts,
    Specification,
};
use rules::Kind;

// A record from values, and the answer.
fn make<V: Ruled>(values: &V, out: &mut [u8], answer: &mut [u64; 16])
    ensures { MakeNumbers V.kind (V.puts values.now) out.old answer.new out.new }
{
    tell_made(make_record::make(values, out), answer);
}

#[unsafe(no_mangle)]
pub extern "C" fn pay_make10(sender: u64, number: u64, out: &mut [u8], answer: &mut [u64; 16])
    ensures { MakeNumbers Kind.R10 (made10 sender number) out.old answer.new out.new }
{
    let values = FileStart { sender, number };
    make(&values, out, answer);
}

#[unsafe(no_mangle)]
pub extern "C" fn pay_make20(
    service: u64,
    agreement: u64,
    assignment: u64,
    account: u64,
    out: &mut [u8],
    answer: &mut [u64; 16],
)
    ensures { MakeNumbers Kind.R20 (made20 service agreement assignment account) out.old answer.new out.new }
{
    let values = AssignmentStart {
        service,
        agreement,
        assignment,
        account,
    };
    make(&values, out, answer);
}

#[unsafe(no_mangle)]
pub extern "C" fn pay_make30(
    service: u64,
    code: u64,
    number: u64,
    date: u64,
    party: &[u8],
    amount: u64,
    kid: &[u8],
    out: &mut [u8],
    answer: &mut [u64; 16],
)
    ensures { MakeNumbers Kind.R30 (made30 service code number date party.now amount kid.now) out.old answer.new out.new }
{
    let opening = Opening {
        service,
        code,
        number,
    };
    let values = Payment {
        opening,
        date,
        party,
        amount: Amount(amount),
        kid,
    };
    make(&values, out, answer);
}

#[unsafe(no_mangle)]
pub extern "C" fn pay_make31(
    service: u64,
    code: u64,
    number: u64,
    text6: &[u8],
    text7: &[u8],
    text8: &[u8],
    out: &mut [u8],
    answer: &mut [u64; 16],
)
    ensures { MakeNumbers Kind.R31 (made31 service code number text6.now text7.now text8.now) out.old answer.new out.new }
{
    let opening = Opening {
        service,
        code,
        number,
    };
    let values = PaymentTexts {
        opening,
        text6,
        text7,
        text8,
    };
    make(&values, out, answer);
}

#[unsafe(no_mangle)]
pub extern "C" fn pay_make40(
    service: u64,
    code: u64,
    number: u64,
    name: &[u8],
    postal: &[u8],
    filler: &[u8],
    area: &[u8],
    out: &mut [u8],
    answer: &mut [u64; 16],
)
    ensures { MakeNumbers Kind.R40 (made40 service code number name.now postal.now filler.now area.now) out.old answer.new out.new }
{
    let opening = Opening {
        service,
        code,
        number,
    };
    let values = Address {
        opening,
        name,
        postal,
        filler,
        area,
    };
    make(&values, out, answer);
}

#[unsafe(no_mangle)]
pub extern "C" fn pay_make41(
    service: u64,
    code: u64,
    number: u64,
    address1: &[u8],
    address2: &[u8],
    country: &[u8],
    out: &mut [u8],
    answer: &mut [u64; 16],
)
    ensures { MakeNumbers Kind.R41 (made41 service code number address1.now address2.now country.now) out.old answer.new out.new }
{
    let opening = Opening {
        service,
        code,
        number,
    };
    let values = AddressLines {
        opening,
        address1,
        address2,
        country,
    };
    make(&values, out, answer);
}

#[unsafe(no_mangle)]
pub extern "C" fn pay_make49(
    service: u64,
    code: u64,
    number: u64,
    line: u64,
    column: u64,
    text: &[u8],
    out: &mut [u8],
    answer: &mut [u64; 16],
)
    ensures { MakeNumbers Kind.R49 (made49 service code number line column text.now) out.old answer.new out.new }
{
    let opening = Opening {
        service,
        code,
        number,
    };
    let values = MessageLine {
        opening,
        line,
        column,
        text,
    };
    make(&values, out, answer);
}

#[unsafe(no_mangle)]
pub extern "C" fn pay_make50(
    service: u64,
    code: u64,
    number: u64,
    kid: &[u8],
    amount: u64,
    out: &mut [u8],
    answer: &mut [u64; 16],
)
    ensures { MakeNumbers Kind.R50 (made50 service code number kid.now amount) out.old answer.new out.new }
{
    let opening = Opening {
        service,
        code,
        number,
    };
    let values = Specification {
        opening,
        kid,
        amount: Amount(amount),
    };
    make(&values, out, answer);
}
