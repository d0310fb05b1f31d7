// Where the fields of a record stand, positions counted from 1.

#![tactic(auto, unfolding(crate::specs::Positions::message_ends, crate::specs::Positions::positions_in))]

ghost use Rattle.std.specs.Prelude.{◌≡◌};
ghost use Rattle.tool_positions.specs.Positions.{ends_of, message_ends, positions_of};

use rules::Kind;

#[derive(Clone, Copy, Debug, PartialEq, Eq)]
pub struct Positions {
    pub from: u64,
    pub to: u64,
}

// A message stands one position further on in service 01, behind its mark.
fn message_ends(service: u8) -> [u8; 11]
    ensures { result ≡ message_ends service }
{
    if service == 4 {
        return [0, 2, 4, 6, 8, 15, 18, 19, 59, 80, 80];
    }
    [0, 2, 4, 6, 8, 15, 16, 19, 20, 60, 80]
}

// The last position of each field, with 0 before the first. A record has 8 to 10 fields.
fn ends_of(kind: Kind, service: u8) -> [u8; 11]
    ensures { result ≡ ends_of kind service }
{
    match kind {
        Kind::R10 => [0, 2, 4, 6, 8, 16, 23, 31, 80, 80, 80],
        Kind::R20 => [0, 2, 4, 6, 8, 17, 24, 35, 80, 80, 80],
        Kind::R30 => [0, 2, 4, 6, 8, 15, 21, 32, 49, 74, 80],
        Kind::R31 => [0, 2, 4, 6, 8, 15, 25, 50, 75, 80, 80],
        Kind::R40 => [0, 2, 4, 6, 8, 15, 45, 49, 52, 77, 80],
        Kind::R41 => [0, 2, 4, 6, 8, 15, 45, 75, 78, 80, 80],
        Kind::R49 => message_ends(service),
        Kind::R50 => [0, 2, 4, 6, 8, 15, 40, 57, 80, 80, 80],
        Kind::R88 => [0, 2, 4, 6, 8, 16, 24, 41, 47, 53, 80],
        Kind::R89 => [0, 2, 4, 6, 8, 16, 24, 41, 47, 80, 80],
        Kind::Other => [0, 2, 4, 6, 8, 80, 80, 80, 80, 80, 80],
    }
}

// The positions of a field in a record of this type and service, where there is such a field.
pub fn positions_of(kind: Kind, service: u8, field: usize) -> Option<Positions>
    ensures { result ≡ positions_of kind service field }
{
    if field < 1 {
        return None;
    }
    if 10 < field {
        return None;
    }
    let ends = ends_of(kind, service);
    Some(Positions {
        from: u64::from(ends[field - 1]) + 1,
        to: u64::from(ends[field]),
    })
}
