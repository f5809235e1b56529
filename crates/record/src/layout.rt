//! Records as 24 bytes.
ghost use Rattle.std.specs.Prelude.{◌≡◌, ◌+◌, ◌++◌, IfOk};
ghost use Rattle.std.specs.Option.{option_map};
ghost use Rattle.record.specs.Refusals.{refused};
ghost use Rattle.record.specs.Making.{parts_of, parts_refusal};
ghost use Rattle.record.specs.Layout.{Rereads, bytes_refusal, head_bytes, layout, lying_in, parts_at};

use crate::fields::Record;
use crate::refusals::RecordError;
use crate::units::Unit;

impl Record {
    /// The record that lies in 24 bytes, or a refusal. Writing what was read gives the bytes back,
    /// and reading what was written gives the record back.
    pub fn from_bytes(bytes: &[u8]) -> Result<Record, RecordError>
        ensures refuses { refused result ≡ bytes_refusal bytes.now }
        ensures rewrites { IfOk result (λ x. layout x ≡ bytes.now) }
        ensures rereads { Rereads bytes.now result }
    {
        let bytes: [u8; 24] = bytes.try_into().map_err(|_| RecordError::Length)?;
        Record::read(bytes)
    }

    // The record whose parts lie where the layout has them.
    fn read(bytes: [u8; 24]) -> Result<Record, RecordError>
        ensures refuses { refused result ≡ parts_refusal (parts_at bytes) }
        ensures holds { IfOk result (λ x. parts_of x ≡ parts_at bytes) }
    {
        let [p0, p1, unit, exponent, .., n0, n1, n2, n3] = bytes;
        let parameter = u16::from_be_bytes([p0, p1]);
        let unit = Unit::try_from(unit)?;
        let exponent = i8::from_be_bytes([exponent]);
        let number = i32::from_be_bytes([n0, n1, n2, n3]);
        // The name is no part of the pattern: `name @ ..` is not covered there.
        Record::of_parts(parameter, unit, i32::from(exponent), &bytes[4..20], number)
    }

    /// The 24 bytes of the record.
    #[tactic(auto, unfolding(crate::specs::Layout::layout), using(crate::proofs::Whole::number_width))]
    pub fn to_bytes(&self) -> [u8; 24]
        ensures { result ≡ layout self.now }
    {
        let number = self.number.value.to_be_bytes();
        let rest: [u8; 20] = one_after_the_other(self.name.bytes, number);
        one_after_the_other(self.head(), rest)
    }

    // Parameter, unit and exponent.
    fn head(&self) -> [u8; 4]
        ensures { result ≡ head_bytes self.now }
    {
        let [high, low] = self.parameter.to_be_bytes();
        let [exponent] = self.exponent.value.to_be_bytes();
        [high, low, u8::from(self.unit), exponent]
    }
}

/// The record that lies in these bytes, if one does.
#[tactic(auto, unfolding(crate::specs::Layout::is_record))]
pub fn lying_in(bytes: &[u8]) -> Option<Record>
    ensures { option_map layout result ≡ lying_in bytes.now }
{
    Record::from_bytes(bytes).ok()
}

// The bytes of both.
fn one_after_the_other<const A: usize, const B: usize, const N: usize>(
    a: [u8; A],
    b: [u8; B],
) -> [u8; N]
    requires { A + B ≡ N }
    ensures { result ≡ a.entry ++ b.entry }
{
    let mut bytes = [0; N];
    let (first, second) = bytes.split_at_mut(A);
    first.copy_from_slice(&a);
    second.copy_from_slice(&b);
    bytes
}
