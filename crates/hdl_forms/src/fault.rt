//! Faults of forms, each beside its field.

ghost use Rattle.std.specs.Prelude.{◌≡◌};
ghost use Rattle.hdl_forms.specs.Open.{words_of_name};

use crate::change::TypedFault;
use crate::draft::DraftFault;
use hdl_msg::ResponseCode;
use hdl_name::NameFault;

/// Where a fault is said.
#[derive(Clone, Copy, PartialEq, Eq)]
pub(crate) enum Field {
    Top,
    Handle,
    Index,
    Type,
    Text,
    Key,
    Secret,
}

/// What is wrong with a form, and where; nothing if there are no words.
#[derive(Clone, Copy)]
pub(crate) struct Fault<'a> {
    pub(crate) field: Field,
    pub(crate) words: &'a str,
}

/// Nothing is wrong.
pub(crate) const NO_FAULT: Fault<'static> = Fault {
    field: Field::Top,
    words: "",
};

const NAME_TOO_LONG: &str = "The name is too long.";

const NAME_NOT_UTF8: &str = "The name isn't UTF-8.";

const NAME_OF_OTHER_FORM: &str = "A handle is a prefix, a slash and a local name, such as 10/a.";

impl Fault<'_> {
    /// What is said at this field.
    pub(crate) fn at(&self, field: Field) -> &[u8] {
        if self.field == field {
            self.words.as_bytes()
        } else {
            b""
        }
    }
}

fn fault_at(field: Field, words: &'static str) -> Fault<'static> {
    Fault { field, words }
}

/// What is said of a change that can't be read. None if there was no memory.
pub(crate) fn fault_of_draft(of: DraftFault) -> Option<Fault<'static>> {
    match of {
        DraftFault::Task | DraftFault::Ttl | DraftFault::Permissions => Some(fault_at(
            Field::Top,
            "This form isn't whole. Please open it again.",
        )),
        DraftFault::Index => Some(fault_at(
            Field::Index,
            "An index is a number from 1 to 4294967295.",
        )),
        DraftFault::Type => Some(fault_at(
            Field::Type,
            "The type is empty, or has a space or other than graphic ASCII characters.",
        )),
        DraftFault::TypeLong => Some(fault_at(Field::Type, "The type is longer than 255 bytes.")),
        DraftFault::TypeReserved => Some(fault_at(
            Field::Type,
            "Values of a type that begins with HS_ can't be changed here, but those of HS_ALIAS and HS_GONE.",
        )),
        DraftFault::Text => Some(fault_at(
            Field::Text,
            "Please type a text on one line, of at most 32768 bytes.",
        )),
        DraftFault::Url => Some(fault_at(
            Field::Text,
            "An address begins with https://, http://, ftp://, mailto: or doi:.",
        )),
        DraftFault::Alias => Some(fault_at(
            Field::Text,
            "An alias names another handle: a prefix, a slash and a local name, such as 10/b, without an address or hdl: before it.",
        )),
        DraftFault::Memory => None,
    }
}

/// What is said of a key that can't be read. None if there was no memory.
pub(crate) fn fault_of_key(of: TypedFault) -> Option<Fault<'static>> {
    match of {
        TypedFault::Key => Some(fault_at(
            Field::Key,
            "A key is a number, a colon and a handle, such as 300:0.NA/10.",
        )),
        TypedFault::Secret => Some(fault_at(Field::Secret, "Please type the secret.")),
        TypedFault::Memory => None,
    }
}

/// What is said of a name that is no handle.
pub(crate) fn words_of_name(of: NameFault) -> &'static str
    ensures { result.now ≡ words_of_name of }
{
    match of {
        NameFault::TooLong => NAME_TOO_LONG,
        NameFault::NotUtf8 => NAME_NOT_UTF8,
        NameFault::NoSlash | NameFault::BadSegment | NameFault::Memory => NAME_OF_OTHER_FORM,
    }
}

/// The same, at the field of a handle.
pub(crate) fn fault_of_name(of: NameFault) -> Fault<'static> {
    fault_at(Field::Handle, words_of_name(of))
}

/// What is said of a name that was pasted with what stands before it in an address.
pub(crate) fn fault_of_address() -> Fault<'static> {
    fault_at(
        Field::Handle,
        "Type only the handle, such as 10/a, without an address or hdl: before it.",
    )
}

/// What is said of a URL that is the handle's own address.
pub(crate) fn fault_of_circle() -> Fault<'static> {
    fault_at(
        Field::Text,
        "This is the address of the handle itself, so it would lead in a circle. Type the address to which it shall lead.",
    )
}

/// What is said of a form that is too old.
pub(crate) fn fault_of_age() -> Fault<'static> {
    fault_at(
        Field::Top,
        "This form is too old, so nothing was done: it can be sent for an hour, and until the server starts again. Please look at it and send it again.",
    )
}

/// What is said of a prefix that is none.
pub(crate) fn fault_of_prefix() -> Fault<'static> {
    fault_at(
        Field::Handle,
        "A prefix is what stands before the slash of a handle, such as 10.",
    )
}

/// What is said of too many words that are looked for.
pub(crate) fn fault_of_words() -> Fault<'static> {
    fault_at(
        Field::Top,
        "The words in the handle, and those in the URL, may have up to 256 bytes each.",
    )
}

/// What is said in place of the words of an answer of this code, if that says more to someone who filled in a form.
pub(crate) fn words_of_code(code: Option<u64>) -> Option<&'static str> {
    let code = u32::try_from(code?).ok()?;
    match ResponseCode::of(code) {
        Some(ResponseCode::AuthenticationFailed) => {
            Some("The secret isn't that of the key. Is there a space at its end?")
        }
        Some(ResponseCode::HandleAlreadyExists) => {
            Some("This handle is there already. Perhaps the form was sent twice.")
        }
        _ => None,
    }
}

/// What is said if a handle can't be said to be gone, since the index has a value.
pub(crate) fn fault_of_gone() -> Fault<'static> {
    fault_at(
        Field::Top,
        "Someone already said so, or a value that isn't public has this index.",
    )
}
