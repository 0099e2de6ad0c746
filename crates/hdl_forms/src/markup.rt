//! The markup of the pages, with a `$` for each text in it.

ghost use Rattle.std.specs.Prelude.{◌≡◌};
ghost use Rattle.hdl_forms.specs.Template.{markup_of};
ghost use Rattle.hdl_forms.specs.Fields.{field_template, key_template, prefix_template, secret_template};

/// The values of a handle, each with a form of its own: the handle's name; what is wrong.
const VALUES: &str = "<h1>Change this handle</h1>
<p class=\"name\" dir=\"auto\">$</p>
<p class=\"fault\" role=\"alert\">$</p>
<p>Each change is shown again before it is made. You need a key of this handle for it.</p>
<h2>Its values</h2>
";

/// What is said above more than one form.
const ONE_AT_A_TIME: &str =
    "<p>Change one value at a time: each button sends only its own field.</p>
";

/// The form of a value up to its field: token, index, type, TTL, permissions, text before.
const VALUE: &str = "<form class=\"fields\" action=\"?edit\" method=\"post\">
<input type=\"hidden\" name=\"token\" value=\"$\">
<input type=\"hidden\" name=\"index\" value=\"$\">
<input type=\"hidden\" name=\"type\" value=\"$\">
<input type=\"hidden\" name=\"ttl\" value=\"$\">
<input type=\"hidden\" name=\"permissions\" value=\"$\">
<input type=\"hidden\" name=\"old\" value=\"$\">
";

/// The end of that form.
const VALUE_BUTTONS: &str =
    "<p class=\"find\"><button name=\"task\" value=\"change\">Change</button> <button class=\"less\" name=\"task\" value=\"remove\" formnovalidate>Remove</button></p>
</form>
";

/// A field that is typed: id, label, note, id, name, value, placeholder, kind of keys, id; id, fault.
const FIELD: &str = "<p><label for=\"$\"><bdi>$</bdi> <small>$</small></label>
<input id=\"$\" name=\"$\" value=\"$\" placeholder=\"$\" inputmode=\"$\" dir=\"auto\" aria-describedby=\"$-fault\" autocapitalize=\"off\" spellcheck=\"false\" required></p>
<p class=\"fault\" id=\"$-fault\">$</p>
";

/// The same with a fault, where typing goes on.
const FAULTY_FIELD: &str = "<p><label for=\"$\"><bdi>$</bdi> <small>$</small></label>
<input id=\"$\" name=\"$\" value=\"$\" placeholder=\"$\" inputmode=\"$\" dir=\"auto\" aria-describedby=\"$-fault\" aria-invalid=\"true\" autocapitalize=\"off\" spellcheck=\"false\" autofocus required></p>
<p class=\"fault\" id=\"$-fault\" role=\"alert\">$</p>
";

/// The field of a key: fault.
const KEY: &str = "<p><label for=\"key\">Your key, as INDEX:HANDLE</label>
<input id=\"key\" name=\"key\" placeholder=\"300:0.NA/10\" aria-describedby=\"key-fault\" autocapitalize=\"off\" autocomplete=\"off\" spellcheck=\"false\" required></p>
<p class=\"fault\" id=\"key-fault\">$</p>
";

const FAULTY_KEY: &str = "<p><label for=\"key\">Your key, as INDEX:HANDLE</label>
<input id=\"key\" name=\"key\" placeholder=\"300:0.NA/10\" aria-describedby=\"key-fault\" aria-invalid=\"true\" autocapitalize=\"off\" autocomplete=\"off\" spellcheck=\"false\" autofocus required></p>
<p class=\"fault\" id=\"key-fault\" role=\"alert\">$</p>
";

/// The field of its secret: fault.
const SECRET: &str = "<p><label for=\"secret\">Its secret</label>
<input id=\"secret\" name=\"secret\" type=\"password\" aria-describedby=\"secret-fault\" autocomplete=\"off\" required></p>
<p class=\"fault\" id=\"secret-fault\">$</p>
";

const FAULTY_SECRET: &str = "<p><label for=\"secret\">Its secret</label>
<input id=\"secret\" name=\"secret\" type=\"password\" aria-describedby=\"secret-fault\" aria-invalid=\"true\" autocomplete=\"off\" autofocus required></p>
<p class=\"fault\" id=\"secret-fault\" role=\"alert\">$</p>
";

/// What is said where there is no value that a form changes.
const NONE: &str =
    "<p>None of its public values is text on one line, so none can be changed here.</p>
";

/// The form of a new value up to its fields: token.
const ADD: &str = "<h2>Add a value</h2>
<form class=\"fields\" action=\"?edit\" method=\"post\">
<input type=\"hidden\" name=\"token\" value=\"$\">
<input type=\"hidden\" name=\"ttl\" value=\"86400\">
<input type=\"hidden\" name=\"permissions\" value=\"1110\">
";

const ADD_BUTTON: &str = "<p class=\"find\"><button name=\"task\" value=\"add\">Add</button></p>
</form>
";

/// That the handle is gone: token, index.
const GONE: &str = "<h2>Say that it is gone</h2>
<form class=\"fields\" action=\"?edit\" method=\"post\">
<input type=\"hidden\" name=\"token\" value=\"$\">
<input type=\"hidden\" name=\"type\" value=\"HS_GONE\">
<input type=\"hidden\" name=\"index\" value=\"$\">
<input type=\"hidden\" name=\"ttl\" value=\"86400\">
<input type=\"hidden\" name=\"permissions\" value=\"1110\">
<p>Readers then see a page that says why, and the day on which you say so: you need type no date. They aren't sent on. To undo it, remove the value HS_GONE.</p>
<p><label for=\"why\">Why it is gone</label>
<input id=\"why\" name=\"text\" dir=\"auto\" required></p>
<p class=\"find\"><button name=\"task\" value=\"add\">Say so</button></p>
</form>
";

/// The form by which that of a handle is opened, up to its field.
const OPEN: &str = "<h1>Change a handle</h1>
<form class=\"fields\" action=\"/\" method=\"get\">
";

const OPEN_BUTTON: &str = "<p class=\"find\"><button>Open its form</button></p>
</form>
";

/// The form of a new handle up to its fields: fault; token.
const CREATE: &str = "<h1>Create a handle</h1>
<p class=\"fault\" role=\"alert\">$</p>
<form class=\"fields\" action=\"?new\" method=\"post\">
<input type=\"hidden\" name=\"token\" value=\"$\">
<input type=\"hidden\" name=\"index\" value=\"1\">
<input type=\"hidden\" name=\"type\" value=\"URL\">
<input type=\"hidden\" name=\"ttl\" value=\"86400\">
<input type=\"hidden\" name=\"permissions\" value=\"1110\">
";

const CREATE_BUTTON: &str = "<p><small>Check the name: no form deletes a handle.</small></p>
<p class=\"find\"><button name=\"task\" value=\"create\">Create</button></p>
</form>
";

/// A change: what is said of it, handle, type, index; when, the text; when, the text.
const SHOWN: &str = "<h1>$</h1>
<p class=\"name\" dir=\"auto\">$</p>
<p><bdi>$</bdi> <small>$</small></p>
<dl class=\"pair\"><div><dt>$</dt><dd dir=\"auto\">$</dd></div><div><dt>$</dt><dd dir=\"auto\">$</dd></div></dl>
";

/// What may be wrong with a change before it is made: in words.
const WARNING: &str = "<p class=\"note\">$</p>
";

/// A type that differs from another by its letters' case: that other one.
const TYPE_WARNING: &str =
    "<p class=\"note\">The type differs from $ in small and capital letters, so it is another type. Is that meant?</p>
";

/// A value that someone else changed meanwhile: handle, type, index; the text that the form showed, the text now, the text of the form.
const CHANGED: &str = "<h1>Someone else changed this value</h1>
<p class=\"name\" dir=\"auto\">$</p>
<p>Nothing was done. You can still make your change: the TTL and the permissions stay as they are now.</p>
<p><bdi>$</bdi> <small>$</small></p>
<dl class=\"pair\"><div><dt>Your form showed</dt><dd dir=\"auto\">$</dd></div><div><dt>Now</dt><dd dir=\"auto\">$</dd></div><div><dt>Your change</dt><dd dir=\"auto\">$</dd></div></dl>
";

/// Below a change before it is made, up to the fields of the key: `edit` or `new`; token, task, index, type, TTL, permissions, before, after,
/// handle; fault.
const CONFIRM: &str = "<form class=\"fields\" action=\"?$\" method=\"post\">
<input type=\"hidden\" name=\"token\" value=\"$\">
<input type=\"hidden\" name=\"task\" value=\"$\">
<input type=\"hidden\" name=\"index\" value=\"$\">
<input type=\"hidden\" name=\"type\" value=\"$\">
<input type=\"hidden\" name=\"ttl\" value=\"$\">
<input type=\"hidden\" name=\"permissions\" value=\"$\">
<input type=\"hidden\" name=\"old\" value=\"$\">
<input type=\"hidden\" name=\"text\" value=\"$\">
<input type=\"hidden\" name=\"handle\" value=\"$\">
<p class=\"fault\" role=\"alert\">$</p>
";

/// The end of that form: button.
const CONFIRM_BUTTON: &str = "<p class=\"find\"><button>$</button></p>
</form>
<p><small>Key and secret are used for this change and then forgotten.</small></p>
";

/// The way from a change to a new form: its address.
const BACK: &str = "<p><a href=\"$\">Back to the form, without this change</a></p>
";

/// The way to a handle of whose change it isn't known what became: the address of its values as they are now.
const LOOK: &str = "<p><a href=\"$\">Open the handle and look</a></p>
";

/// Below a change of a handle that was there before: for how many seconds browsers keep a redirect.
const KEPT: &str =
    "<p class=\"note\">A browser that followed this handle lately, yours too, may go to the old address for up to $ seconds more. Reloading doesn't help; these two links ask anew:</p>
";

/// Below a change that was made: the address of the handle's values as they are now, the one at which it is followed as it is now, that of its form.
const DONE: &str = "<p><a href=\"$\">See its values</a></p>
<p><a href=\"$\">Go where it leads</a></p>
<p><a href=\"$\">Change another value</a></p>
<p><a href=\"/?new\">Create another handle</a></p>
";

/// A form that isn't taken: why, what to do, and where.
const REFUSED: &str = "<h1>$</h1>
<p>$</p>
<p><a href=\"$\">Open the form again</a></p>
";

/// What all pages of lists begin with.
const LIST: &str = "<h1>A list of handles</h1>
<p>Lists are of a copy of the table: what was changed after that copy was made isn't in them.</p>
";

/// The form of a list up to its prefix: token; fault.
const LIST_FORM: &str = "<form class=\"fields\" action=\"/?list\" method=\"post\">
<input type=\"hidden\" name=\"token\" value=\"$\">
<p class=\"fault\" role=\"alert\">$</p>
";

/// The field of its prefix: prefix, fault.
const PREFIX: &str = "<p><label for=\"list\">Prefix</label>
<input id=\"list\" name=\"list\" value=\"$\" placeholder=\"10\" dir=\"auto\" aria-describedby=\"list-fault\" autocapitalize=\"off\" spellcheck=\"false\" required></p>
<p class=\"fault\" id=\"list-fault\">$</p>
";

const FAULTY_PREFIX: &str = "<p><label for=\"list\">Prefix</label>
<input id=\"list\" name=\"list\" value=\"$\" placeholder=\"10\" dir=\"auto\" aria-describedby=\"list-fault\" aria-invalid=\"true\" autocapitalize=\"off\" spellcheck=\"false\" autofocus required></p>
<p class=\"fault\" id=\"list-fault\" role=\"alert\">$</p>
";

/// The fields of its words: those in the handle, those in the URL.
const WORDS: &str = "<p><label for=\"q\">Words in the handle, if not all are wanted</label>
<input id=\"q\" name=\"q\" value=\"$\" dir=\"auto\" autocapitalize=\"off\" spellcheck=\"false\"></p>
<p><label for=\"to\">Words in the URL to which it leads, likewise</label>
<input id=\"to\" name=\"to\" value=\"$\" dir=\"auto\" autocapitalize=\"off\" spellcheck=\"false\"></p>
";

/// The end of that form.
const FIND: &str = "<p class=\"find\"><button>Find</button></p>
</form>
<p><small>Key and secret are used once and then forgotten: type them again for each search and each page.</small></p>
";

/// The same if there is a next page: the place where that begins.
const FIND_OR_NEXT: &str =
    "<p class=\"find\"><button>Find</button> <button class=\"less\" name=\"from\" value=\"$\">Next page</button></p>
</form>
<p><small>Key and secret are used once and then forgotten: type them again for each search and each page.</small></p>
";

/// What was looked for: prefix; how many handles were found; words in the handle, words in the URL.
const FOUND: &str = "<h2>Handles of the prefix <bdi>$</bdi></h2>
<p role=\"status\">Shown here: $. Words in the handle: <bdi>$</bdi>. Words in the URL: <bdi>$</bdi>.</p>
";

/// Before the handles that were found, and behind them.
const ROWS: &str = "<p id=\"opens\">Each opens in a new tab.</p>
<ol>
";

const ROWS_END: &str = "</ol>\n";

/// A handle: the address of its page, its name, and the URL to which it leads.
const ROW: &str =
    "<li><a href=\"$?noredirect\" target=\"_blank\" rel=\"noopener\" aria-describedby=\"opens\"><bdi>$</bdi></a><br><small><bdi>$</bdi></small></li>\n";

/// The same of a handle that is gone.
const GONE_ROW: &str =
    "<li><a href=\"$?noredirect\" target=\"_blank\" rel=\"noopener\" aria-describedby=\"opens\"><bdi>$</bdi></a> is gone<br><small><bdi>$</bdi></small></li>\n";

const NOTHING: &str =
    "<p class=\"note\" role=\"status\">No handle was found. One made after the copy of the table isn't in it: ask your administrator for a newer copy.</p>\n";

/// Below a list.
const LIST_FOOT: &str = "<p><small>Each handle has the first URL that everyone may read.</small></p>
";

/// Below a list of which there is a next page.
const LIST_FOOT_NEXT: &str =
    "<p><small>Each handle has the first URL that everyone may read. A page has at most 500. For each page at most 20000 handles are looked at, so the next page may have some if this one has none.</small></p>
";

/// Before the last changes of a handle.
const HISTORY: &str = "<h2>Its last changes</h2>
<p>Of the values before a change those are shown that everyone may read.</p>
<ol>
";

/// A change: moment, moment, what it did, who made it.
const ENTRY: &str = "<li><p><time datetime=\"$\">$</time> (UTC): $, by <bdi>$</bdi></p>
";

/// A value before it: type, index, data.
const BEFORE: &str = "<p>Before: <bdi>$</bdi> <small>$</small> <bdi>$</bdi></p>
";

const ENTRY_END: &str = "</li>
";

const HISTORY_END: &str = "</ol>
";

/// A part of a page.
#[derive(Clone, Copy, PartialEq, Eq)]
pub(crate) enum Template {
    Values,
    OneAtATime,
    Value,
    ValueButtons,
    Field,
    FaultyField,
    Key,
    FaultyKey,
    Secret,
    FaultySecret,
    None,
    Add,
    AddButton,
    Gone,
    Open,
    OpenButton,
    Create,
    CreateButton,
    Shown,
    Warning,
    TypeWarning,
    Changed,
    Confirm,
    ConfirmButton,
    Back,
    Look,
    Kept,
    Done,
    Refused,
    List,
    ListForm,
    Prefix,
    FaultyPrefix,
    Words,
    Find,
    FindOrNext,
    Found,
    Rows,
    Row,
    GoneRow,
    RowsEnd,
    Nothing,
    ListFoot,
    ListFootNext,
    History,
    Entry,
    Before,
    EntryEnd,
    HistoryEnd,
}

impl Template {
    pub(crate) fn markup(self) -> &'static str
        ensures { result.now ≡ markup_of self }
    {
        match self {
            Template::Values => VALUES,
            Template::OneAtATime => ONE_AT_A_TIME,
            Template::Value => VALUE,
            Template::ValueButtons => VALUE_BUTTONS,
            Template::Field => FIELD,
            Template::FaultyField => FAULTY_FIELD,
            Template::Key => KEY,
            Template::FaultyKey => FAULTY_KEY,
            Template::Secret => SECRET,
            Template::FaultySecret => FAULTY_SECRET,
            Template::None => NONE,
            Template::Add => ADD,
            Template::AddButton => ADD_BUTTON,
            Template::Gone => GONE,
            Template::Open => OPEN,
            Template::OpenButton => OPEN_BUTTON,
            Template::Create => CREATE,
            Template::CreateButton => CREATE_BUTTON,
            Template::Shown => SHOWN,
            Template::Warning => WARNING,
            Template::TypeWarning => TYPE_WARNING,
            Template::Changed => CHANGED,
            Template::Confirm => CONFIRM,
            Template::ConfirmButton => CONFIRM_BUTTON,
            Template::Back => BACK,
            Template::Look => LOOK,
            Template::Kept => KEPT,
            Template::Done => DONE,
            Template::Refused => REFUSED,
            Template::List => LIST,
            Template::ListForm => LIST_FORM,
            Template::Prefix => PREFIX,
            Template::FaultyPrefix => FAULTY_PREFIX,
            Template::Words => WORDS,
            Template::Find => FIND,
            Template::FindOrNext => FIND_OR_NEXT,
            Template::Found => FOUND,
            Template::Rows => ROWS,
            Template::Row => ROW,
            Template::GoneRow => GONE_ROW,
            Template::RowsEnd => ROWS_END,
            Template::Nothing => NOTHING,
            Template::ListFoot => LIST_FOOT,
            Template::ListFootNext => LIST_FOOT_NEXT,
            Template::History => HISTORY,
            Template::Entry => ENTRY,
            Template::Before => BEFORE,
            Template::EntryEnd => ENTRY_END,
            Template::HistoryEnd => HISTORY_END,
        }
    }
}

/// The template of a field of which this is wrong.
pub(crate) fn field_template(fault: &[u8]) -> Template
    ensures { result ≡ field_template fault.now }
{
    if fault.is_empty() {
        Template::Field
    } else {
        Template::FaultyField
    }
}

/// The same for the field of a key.
pub(crate) fn key_template(fault: &[u8]) -> Template
    ensures { result ≡ key_template fault.now }
{
    if fault.is_empty() {
        Template::Key
    } else {
        Template::FaultyKey
    }
}

/// The same for the field of its secret.
pub(crate) fn secret_template(fault: &[u8]) -> Template
    ensures { result ≡ secret_template fault.now }
{
    if fault.is_empty() {
        Template::Secret
    } else {
        Template::FaultySecret
    }
}

/// The same for the field of a list's prefix.
pub(crate) fn prefix_template(fault: &[u8]) -> Template
    ensures { result ≡ prefix_template fault.now }
{
    if fault.is_empty() {
        Template::Prefix
    } else {
        Template::FaultyPrefix
    }
}
