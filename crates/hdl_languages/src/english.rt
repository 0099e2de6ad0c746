//! The words of the pages in English. Some hold markup (`<code>`); none holds a text of anyone else.

// A page, whatever it is about.

pub(crate) const LANGUAGE_TAG: &str = "en";

pub(crate) const QUESTIONS: &str = "Questions?";

pub(crate) const FIND_ANOTHER: &str = "Find another handle";

// The front page.

pub(crate) const FIND_A_HANDLE: &str = "Find a handle";

pub(crate) const AS_YOU_FOUND_IT: &str = "A handle, as you found it:";

pub(crate) const GO_TO_IT: &str = "Go to it";

pub(crate) const WHAT_A_HANDLE_IS: &str =
    "A handle such as <code>10/a</code> is a lasting name of a text, a picture or data, which may move. Its address here leads to where that is now.";

pub(crate) const HOW_TO_SEE_VALUES: &str =
    "An address that ends in <code>?noredirect</code>, such as <code>/10/a?noredirect</code>, shows the values of its handle. <code>/api/handles/10/a</code> gives them as JSON.";

// The values of a handle.

pub(crate) const WHAT_IS_KNOWN: &str = "What is known about this handle";

pub(crate) const TYPE_AND_INDEX: &str = "Type, index";

pub(crate) const VALUE: &str = "Value";

pub(crate) const WRITTEN: &str = "Written";

pub(crate) const NOTHING_PUBLIC: &str = "This handle exists, but nothing about it is public.";

pub(crate) const AS_JSON: &str = "For programs: these values as JSON";

pub(crate) const NOT_TEXT: &str = "Not text. Length in bytes:";

// Why values are shown where an address leads nowhere.

pub(crate) const NO_URL: &str =
    "This handle has no web address to go to. Here is what is known about it.";

pub(crate) const URL_UNFOLLOWED: &str =
    "The web address of this handle, or what this link adds to it, isn't one that is followed here. Here is what is known about the handle.";

pub(crate) const LOCATIONS_UNREAD: &str =
    "The list of places that this handle leads to (10320/loc) has a mistake, so it leads nowhere. Please tell the person who gave it to you. Here is what is known about it.";

pub(crate) const LOCATION_UNFOLLOWED: &str =
    "The place that this link asks for, or that was chosen, isn't one that is followed here. Please tell the person who gave the handle to you. Here is what is known about it.";

// What an administrator may do.

pub(crate) const WHO_MAY_CHANGE: &str = "Who may change this handle";

pub(crate) const HOLDER_OF_KEY: &str = "The holder of the key";

pub(crate) const MAY: &str = "may";

pub(crate) const CREATE_HANDLES: &str = "create handles";

pub(crate) const DELETE_HANDLES: &str = "delete them";

pub(crate) const LIST_HANDLES: &str = "list them";

pub(crate) const READ_HIDDEN: &str = "read what isn't public";

pub(crate) const ADD_VALUES: &str = "add values";

pub(crate) const CHANGE_VALUES: &str = "change values";

pub(crate) const REMOVE_VALUES: &str = "remove values";

pub(crate) const ADD_ADMINISTRATORS: &str = "add administrators";

pub(crate) const CHANGE_ADMINISTRATORS: &str = "change administrators";

pub(crate) const REMOVE_ADMINISTRATORS: &str = "remove administrators";

// A handle that is gone.

pub(crate) const GONE_TITLE: &str = "Gone: ";

pub(crate) const GONE_HEADING: &str = "What this handle named is gone.";

pub(crate) const KNOWN_ABOUT_IT: &str = "What is known about it";

// How the title of a refusal begins.

pub(crate) const NOT_FOUND_TITLE: &str = "Not found: ";

pub(crate) const NO_HANDLE_TITLE: &str = "No handle: ";

pub(crate) const NOT_PUBLIC_TITLE: &str = "Not public: ";

pub(crate) const NOT_DONE_TITLE: &str = "Not done: ";

pub(crate) const LEADS_NOWHERE_TITLE: &str = "Leads nowhere: ";

pub(crate) const NO_ANSWER_TITLE: &str = "No answer: ";

// Why there are no values.

pub(crate) const NOT_THERE: &str = "This handle isn't there.";

pub(crate) const SERVER_SAYS_NO_HANDLE: &str = "The server says that this is no handle.";

pub(crate) const NO_SUCH_VALUE: &str = "This handle exists, but it has no such public value.";

pub(crate) const NO_SUCH_PREFIX: &str = "No server here has handles with this beginning.";

pub(crate) const BUSY: &str = "The server is busy.";

pub(crate) const COULD_NOT_ANSWER: &str = "The server couldn't answer.";

pub(crate) const NO_SERVER_ANSWERED: &str = "No server answered.";

pub(crate) const NAME_TOO_LONG: &str = "This is no handle: the name is too long.";

pub(crate) const NAME_NOT_UTF8: &str = "This is no handle: the name is not UTF-8.";

pub(crate) const NAME_WITHOUT_SLASH: &str = "This is no handle: the name has no slash.";

pub(crate) const NAME_OF_BAD_SEGMENT: &str = "This is no handle: the name has a bad segment.";

pub(crate) const NAME_WITHOUT_MEMORY: &str = "This is no handle: no memory for the name.";

pub(crate) const BAD_INDEX: &str = "An index is a number below 4294967296.";

pub(crate) const OTHER_METHOD: &str = "Use GET or HEAD to read a handle.";

// What a reader may do then.

pub(crate) const LOOK_AT_SLASH: &str =
    "Please look for a mistake in the name, such as the slash at its end. If there is none, ask who gave it to you.";

pub(crate) const LOOK_AGAIN: &str =
    "Please look for a mistake in the name. If there is none, ask who gave it to you.";

pub(crate) const HANDLE_FORM: &str =
    "A handle is a prefix, a slash and a local name, such as 10/a.";

pub(crate) const SELECT_OTHERS: &str =
    "Its values aren't public, or the part of its address after the question mark selects others.";

pub(crate) const FOLLOW_LINK: &str = "Follow a link to a handle, or type its address.";

pub(crate) const TELL_GIVER: &str =
    "Please tell the person who gave it to you: one of these handles must be changed.";

pub(crate) const COME_BACK: &str = "Please come back in a few minutes.";

pub(crate) const DID_YOU_MEAN: &str = "Did you mean";

// Aliases.

pub(crate) const IS_ALIAS: &str = "is an alias, which leads to another handle:";

pub(crate) const AN_ALIAS: &str = ", an alias: ";

pub(crate) const LEADS_NOWHERE: &str = "This handle leads nowhere.";

pub(crate) const IN_A_CIRCLE: &str = "Its aliases lead in a circle:";

pub(crate) const BEYOND_TEN: &str = "Its aliases lead on beyond ten handles:";

// Links to forms, below a page.

pub(crate) const LINK_TO_CHANGE: &str = "Change this handle";

pub(crate) const LINK_TO_CHANGE_ANY: &str = "Change a handle";

pub(crate) const LINK_TO_CREATE: &str = "Create a handle";

pub(crate) const LINK_TO_LIST: &str = "List handles";
