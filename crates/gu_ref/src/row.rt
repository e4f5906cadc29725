//! A row of the file, read from the fields of a record.

ghost use Rattle.std.specs.Prelude.{◌≡◌};
ghost use Rattle.std.specs.Option.{option_map};
ghost use Rattle.csv.specs.Records.{fields_of};

use crate::accounts::Account;
use crate::agreements::Agreement;
use crate::guarantors::Guarantor;
use crate::instruments::Instrument;
use csv::ByteRecord;
use gu_terms::{AccountId, AgreementId, FirmId, Group, Name, Symbol};

const FIRM: &[u8] = b"FIRM";

const GROUP: &[u8] = b"GROUP";

const INSTRUMENT: &[u8] = b"INSTRUMENT";

const ACCOUNT: &[u8] = b"ACCOUNT";

const AGREEMENT: &[u8] = b"AGREEMENT";

const GUARANTOR: &[u8] = b"GUARANTOR";

/// A row of the file.
#[derive(Clone, Copy)]
pub(crate) enum Row {
    Firm(FirmId),
    Group(Group),
    Instrument(Instrument),
    Account(Account),
    Agreement(Agreement),
    Guarantor(Guarantor),
}

ghost use Rattle.gu_ref.specs.Rows.{name_in, row_of_one, row_of_two, row_of_three, row_of as row_said};

/// Returns the name in a field, if the field is present and is a name.
fn name_in(field: Option<&[u8]>) -> Option<Name>
    ensures { result ≡ name_in (option_map (λ f. f.now) field.entry) }
{
    let Some(bytes) = field else {
        return None;
    };
    Name::new(bytes)
}

/// Returns the row of this kind with one name.
fn one_name(kind: &[u8], name: Name) -> Option<Row>
    ensures { result ≡ row_of_one kind.now name }
{
    if kind == FIRM {
        return Some(Row::Firm(FirmId { name }));
    }
    if kind == GROUP {
        return Some(Row::Group(Group { name }));
    }
    None
}

/// Returns the row of this kind with two names.
fn two_names(kind: &[u8], first: Name, second: Name) -> Option<Row>
    ensures { result ≡ row_of_two kind.now first second }
{
    if kind == INSTRUMENT {
        return Some(Row::Instrument(Instrument {
            symbol: Symbol { name: first },
            group: Group { name: second },
        }));
    }
    if kind == ACCOUNT {
        return Some(Row::Account(Account {
            account: AccountId { name: first },
            firm: FirmId { name: second },
        }));
    }
    if kind == GUARANTOR {
        return Some(Row::Guarantor(Guarantor {
            guarantor: FirmId { name: first },
            firm: FirmId { name: second },
        }));
    }
    None
}

/// Returns the row of this kind with three names.
fn three_names(kind: &[u8], first: Name, second: Name, third: Name) -> Option<Row>
    ensures { result ≡ row_of_three kind.now first second third }
{
    if kind == AGREEMENT {
        return Some(Row::Agreement(Agreement {
            id: AgreementId { name: first },
            executing: FirmId { name: second },
            account: AccountId { name: third },
        }));
    }
    None
}

/// Returns the row in a record, if it is a valid one.
pub(crate) fn row_of(fields: &ByteRecord) -> Option<Row>
    ensures { result ≡ row_said (fields_of fields.now) }
{
    let Some(kind) = fields.get(0) else {
        return None;
    };
    let Some(first) = name_in(fields.get(1)) else {
        return None;
    };
    if fields.len() == 2 {
        return one_name(kind, first);
    }
    let Some(second) = name_in(fields.get(2)) else {
        return None;
    };
    if fields.len() == 3 {
        return two_names(kind, first, second);
    }
    let Some(third) = name_in(fields.get(3)) else {
        return None;
    };
    if fields.len() == 4 {
        return three_names(kind, first, second, third);
    }
    None
}
