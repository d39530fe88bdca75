// The numbered refusals, by name: what is wrong, and the number that the paper gives it. tools/tables writes the cases from refusals.txt.
#![tactic(auto)]

ghost use Rattle.std.specs.Prelude.{◌≡◌};
ghost use Rattle.refusal.specs.Number.{number_of};

// Why a call was refused.
#[derive(Clone, Copy, Debug, PartialEq, Eq)]
pub enum Refusal {
    InputLength,
    ValueOver,
    RadiusOver,
    NumberOver,
    OutputLength,
    NoLine,
    OtherNumber,
    RowCount,
    NoBlock,
    ManyStarts,
    RegisterFull,
    RegisterShort,
    QuotientByZero,
    Template,
    UnknownKind,
    ImproperSheet,
    TrayUnfit,
    LineNotHeld,
    AddressOver,
    OneSided,
}

// The number of a refusal.
pub fn number(r: Refusal) -> u8
    ensures { result ≡ number_of r }
{
    match r {
        Refusal::InputLength => 1,
        Refusal::ValueOver => 2,
        Refusal::RadiusOver => 3,
        Refusal::NumberOver => 4,
        Refusal::OutputLength => 5,
        Refusal::NoLine => 6,
        Refusal::OtherNumber => 7,
        Refusal::RowCount => 8,
        Refusal::NoBlock => 9,
        Refusal::ManyStarts => 10,
        Refusal::RegisterFull => 11,
        Refusal::RegisterShort => 12,
        Refusal::QuotientByZero => 13,
        Refusal::Template => 14,
        Refusal::UnknownKind => 15,
        Refusal::ImproperSheet => 16,
        Refusal::TrayUnfit => 17,
        Refusal::LineNotHeld => 18,
        Refusal::AddressOver => 19,
        Refusal::OneSided => 20,
    }
}
