// The low-pass stage of one axis, from any state. Signed numbers of a record or an answer are in two's complement.
use crate::record::{Answer, Record};
use analog::types::Axis;
use analog::wide::{bits, from_bits};
use time::Time;

fn levels(a: Axis) -> Answer {
    Answer(bits(a.output), bits(a.velocity))
}

// At rest since n, x: output and velocity if a is 0, else the moment.
pub(crate) fn rested(r: Record) -> Answer {
    let axis = Axis::at_rest(r.moment());
    match r.a {
        0 => levels(axis),
        _ => axis.at.into(),
    }
}

// From the moment 0 with output y and velocity z on to the moment b, x with the input n: output and velocity if a is 0, else the
// value and the fraction of the moment.
pub(crate) fn advanced(r: Record) -> Answer {
    let axis = Axis {
        at: Time(0, 0),
        output: from_bits(r.y),
        velocity: from_bits(r.z),
    }
    .advance(Time(r.b.into(), r.x), r.n.cast_signed());
    match r.a {
        0 => levels(axis),
        _ => Answer(bits(axis.value()), axis.at.1),
    }
}
