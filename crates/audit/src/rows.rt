//! What is compared of a closed world.
ghost use Rattle.std.specs.Prelude.{◌≡◌};
ghost use Rattle.audit.specs.Rows.{all_rows, tag_of};

/// A part of a ring.
#[derive(Clone, Copy, Debug)]
pub(crate) enum RingRow {
    There,
    Serial,
    Length,
    Tx,
    Clean,
    Untaken,
    Notices,
    Pages,
}

/// A part of a domain.
#[derive(Clone, Copy, Debug)]
pub(crate) enum DomainRow {
    Alive,
    Flag,
    Ring(RingRow),
    Memory,
    Generation,
}

/// A part of a closed world.
#[derive(Clone, Copy, Debug)]
pub(crate) enum Row {
    Texts,
    Steps,
    Domain(DomainRow),
    Totals,
}

/// All of them, in the order in which they are compared.
pub(crate) fn all_rows() -> [Row; 15]
    ensures { result ≡ all_rows }
{
    [
        Row::Texts,
        Row::Steps,
        Row::Domain(DomainRow::Alive),
        Row::Domain(DomainRow::Flag),
        Row::Domain(DomainRow::Ring(RingRow::There)),
        Row::Domain(DomainRow::Ring(RingRow::Serial)),
        Row::Domain(DomainRow::Ring(RingRow::Length)),
        Row::Domain(DomainRow::Ring(RingRow::Tx)),
        Row::Domain(DomainRow::Ring(RingRow::Clean)),
        Row::Domain(DomainRow::Ring(RingRow::Untaken)),
        Row::Domain(DomainRow::Ring(RingRow::Notices)),
        Row::Domain(DomainRow::Ring(RingRow::Pages)),
        Row::Domain(DomainRow::Memory),
        Row::Totals,
        Row::Domain(DomainRow::Generation),
    ]
}

/// The number that says in a split that this part differs.
pub(crate) fn tag_of(row: Row) -> u8
    ensures { result ≡ tag_of row }
{
    match row {
        Row::Texts => 20,
        Row::Steps => 21,
        Row::Domain(DomainRow::Alive) => 22,
        Row::Domain(DomainRow::Flag) => 23,
        Row::Domain(DomainRow::Ring(RingRow::There)) => 24,
        Row::Domain(DomainRow::Ring(RingRow::Serial)) => 25,
        Row::Domain(DomainRow::Ring(RingRow::Length)) => 26,
        Row::Domain(DomainRow::Ring(RingRow::Tx)) => 27,
        Row::Domain(DomainRow::Ring(RingRow::Clean)) => 28,
        Row::Domain(DomainRow::Ring(RingRow::Untaken)) => 29,
        Row::Domain(DomainRow::Ring(RingRow::Notices)) => 30,
        Row::Domain(DomainRow::Ring(RingRow::Pages)) => 31,
        Row::Domain(DomainRow::Memory) => 32,
        Row::Totals => 33,
        Row::Domain(DomainRow::Generation) => 34,
    }
}
