//! Forms in a browser by which handles are changed: what a form says, the order that it is, and the pages.
//!
//! ```text
//! method, path, query -> form_at -> FormPlace
//! /?edit: open_at -> open_page: the way to the form of a handle, or the page where one is typed
//! GET:  form_question, a server's reply -> edit_page; or new_page
//! POST: the body -> take_form -> FormStep::Page, or FormStep::Order -> carry_form -> a page
//! /?list: list_at, list_form; POST: the body -> take_list -> ListStep::Page, or ListStep::Order -> carry_list -> a page
//! edit_page, the last entries of a history -> with_history: the page with the handle's last changes
//! ```
//!
//! A change takes two forms: the first says what shall stand there, the second shows old and new, and has the key and its secret. A form is taken
//! if its page was one of this site, and its token was made by this process for this handle within an hour.
//!
//! This crate has no sockets and no clock. No function that makes a page is handed a key: only [`take_form`], [`take_list`] and [`order_of`] see one,
//! and what they give holds it in the order alone.
//!
//! What it promises: `specs/Draft.antt` defines the change that a form says (`draft_in`), `specs/Change.antt` the order that it is, which names that value
//! alone, and its JSON; `specs/Guarded.antt` that it is carried out only if that value is still as the form showed it ([`carry_form`]); `specs/Token.antt` which tokens are accepted; `specs/Warnings.antt` of what the page warns that asks for the key; `specs/Confirm.antt` that pages lead to a handle's values as the server has them now; `specs/Open.antt` to which form what was typed leads ([`open_page`]); `specs/History.antt` that of the values before a change only those are shown that everyone may read ([`with_history`]); and `specs/Template.antt` that a page is markup of this crate with text escaped in its holes.
//!
//! ```rust
//! // crates/hdl_web/src/change_requests.rt
//! match take_form(self.alloc, &self.shared.tokens, place, sent)? {
//! ```
#![tactic(auto)]

mod address;
mod change;
mod confirm;
mod draft;
mod fault;
mod form_link;
mod forms;
mod found;
mod guarded;
mod history;
mod lists;
mod markup;
mod open;
mod origin;
mod pages;
mod results;
mod template;
mod token;
mod warnings;

pub use address::own_host;
pub use change::{FormOrder, TypedFault, TypedKey, order_of};
pub use draft::{Draft, DraftFault, Task, read_draft};
pub use form_link::{FormLink, with_form_link};
pub use forms::{
    FormPlace, FormStep, SentForm, edit_page, form_at, form_question, new_page,
    refuse_cross_origin, refuse_unread, take_form,
};
pub use guarded::carry_form;
pub use history::{SHOWN_MOST, with_history};
pub use lists::{
    LIST_ADDRESS, ListRequest, ListStep, carry_list, list_at, list_form, refused_list, take_list,
};
pub use open::{open_at, open_page};
pub use origin::{Sender, is_same_origin};
pub use pages::FilledForm;
pub use results::result_page;
pub use token::{FORM_LIFE_SECONDS, TokenKey};
