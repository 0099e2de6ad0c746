//! The phrases that the pages say, by their names.

ghost use Rattle.std.specs.Prelude.{◌≡◌};
ghost use Rattle.hdl_languages.specs.Words.{choose, words};

use crate::language::Language;
use crate::{english, german};

/// A phrase of a page.
#[derive(Clone, Copy, PartialEq, Eq)]
pub enum Phrase {
    // A page, whatever it is about.
    LanguageTag,
    Questions,
    FindAnother,
    // The front page.
    FindAHandle,
    AsYouFoundIt,
    GoToIt,
    WhatAHandleIs,
    HowToSeeValues,
    // The values of a handle.
    WhatIsKnown,
    TypeAndIndex,
    Value,
    Written,
    NothingPublic,
    AsJson,
    NotText,
    // Why values are shown where an address leads nowhere.
    NoUrl,
    UrlUnfollowed,
    LocationsUnread,
    LocationUnfollowed,
    // What an administrator may do.
    WhoMayChange,
    HolderOfKey,
    May,
    CreateHandles,
    DeleteHandles,
    ListHandles,
    ReadHidden,
    AddValues,
    ChangeValues,
    RemoveValues,
    AddAdministrators,
    ChangeAdministrators,
    RemoveAdministrators,
    // A handle that is gone.
    GoneTitle,
    GoneHeading,
    KnownAboutIt,
    // How the title of a refusal begins.
    NotFoundTitle,
    NoHandleTitle,
    NotPublicTitle,
    NotDoneTitle,
    LeadsNowhereTitle,
    NoAnswerTitle,
    // Why there are no values.
    NotThere,
    ServerSaysNoHandle,
    NoSuchValue,
    NoSuchPrefix,
    Busy,
    CouldNotAnswer,
    NoServerAnswered,
    NameTooLong,
    NameNotUtf8,
    NameWithoutSlash,
    NameOfBadSegment,
    NameWithoutMemory,
    BadIndex,
    OtherMethod,
    // What a reader may do then.
    LookAtSlash,
    LookAgain,
    HandleForm,
    SelectOthers,
    FollowLink,
    TellGiver,
    ComeBack,
    DidYouMean,
    // Aliases.
    IsAlias,
    AnAlias,
    LeadsNowhere,
    InACircle,
    BeyondTen,
    // Links to forms, below a page.
    LinkToChange,
    LinkToChangeAny,
    LinkToCreate,
    LinkToList,
}

impl Language {
    /// The one of these that is of this language.
    fn choose(self, english: &'static str, german: &'static str) -> &'static str
        ensures { result.now ≡ choose self english.now german.now }
    {
        match self {
            Language::English => english,
            Language::German => german,
        }
    }

    /// A phrase in this language.
    #[tactic(auto, unfolding(crate::specs::Words::words))]
    pub fn words(self, phrase: Phrase) -> &'static str
        ensures { result.now ≡ words self phrase }
    {
        match phrase {
            Phrase::LanguageTag => self.choose(english::LANGUAGE_TAG, german::LANGUAGE_TAG),
            Phrase::Questions => self.choose(english::QUESTIONS, german::QUESTIONS),
            Phrase::FindAnother => self.choose(english::FIND_ANOTHER, german::FIND_ANOTHER),
            Phrase::FindAHandle => self.choose(english::FIND_A_HANDLE, german::FIND_A_HANDLE),
            Phrase::AsYouFoundIt => self.choose(english::AS_YOU_FOUND_IT, german::AS_YOU_FOUND_IT),
            Phrase::GoToIt => self.choose(english::GO_TO_IT, german::GO_TO_IT),
            Phrase::WhatAHandleIs => self.choose(
                english::WHAT_A_HANDLE_IS,
                german::WHAT_A_HANDLE_IS,
            ),
            Phrase::HowToSeeValues => self.choose(
                english::HOW_TO_SEE_VALUES,
                german::HOW_TO_SEE_VALUES,
            ),
            Phrase::WhatIsKnown => self.choose(english::WHAT_IS_KNOWN, german::WHAT_IS_KNOWN),
            Phrase::TypeAndIndex => self.choose(english::TYPE_AND_INDEX, german::TYPE_AND_INDEX),
            Phrase::Value => self.choose(english::VALUE, german::VALUE),
            Phrase::Written => self.choose(english::WRITTEN, german::WRITTEN),
            Phrase::NothingPublic => self.choose(english::NOTHING_PUBLIC, german::NOTHING_PUBLIC),
            Phrase::AsJson => self.choose(english::AS_JSON, german::AS_JSON),
            Phrase::NotText => self.choose(english::NOT_TEXT, german::NOT_TEXT),
            Phrase::NoUrl => self.choose(english::NO_URL, german::NO_URL),
            Phrase::UrlUnfollowed => self.choose(english::URL_UNFOLLOWED, german::URL_UNFOLLOWED),
            Phrase::LocationsUnread => self.choose(
                english::LOCATIONS_UNREAD,
                german::LOCATIONS_UNREAD,
            ),
            Phrase::LocationUnfollowed => self.choose(
                english::LOCATION_UNFOLLOWED,
                german::LOCATION_UNFOLLOWED,
            ),
            Phrase::WhoMayChange => self.choose(english::WHO_MAY_CHANGE, german::WHO_MAY_CHANGE),
            Phrase::HolderOfKey => self.choose(english::HOLDER_OF_KEY, german::HOLDER_OF_KEY),
            Phrase::May => self.choose(english::MAY, german::MAY),
            Phrase::CreateHandles => self.choose(english::CREATE_HANDLES, german::CREATE_HANDLES),
            Phrase::DeleteHandles => self.choose(english::DELETE_HANDLES, german::DELETE_HANDLES),
            Phrase::ListHandles => self.choose(english::LIST_HANDLES, german::LIST_HANDLES),
            Phrase::ReadHidden => self.choose(english::READ_HIDDEN, german::READ_HIDDEN),
            Phrase::AddValues => self.choose(english::ADD_VALUES, german::ADD_VALUES),
            Phrase::ChangeValues => self.choose(english::CHANGE_VALUES, german::CHANGE_VALUES),
            Phrase::RemoveValues => self.choose(english::REMOVE_VALUES, german::REMOVE_VALUES),
            Phrase::AddAdministrators => self.choose(
                english::ADD_ADMINISTRATORS,
                german::ADD_ADMINISTRATORS,
            ),
            Phrase::ChangeAdministrators => self.choose(
                english::CHANGE_ADMINISTRATORS,
                german::CHANGE_ADMINISTRATORS,
            ),
            Phrase::RemoveAdministrators => self.choose(
                english::REMOVE_ADMINISTRATORS,
                german::REMOVE_ADMINISTRATORS,
            ),
            Phrase::GoneTitle => self.choose(english::GONE_TITLE, german::GONE_TITLE),
            Phrase::GoneHeading => self.choose(english::GONE_HEADING, german::GONE_HEADING),
            Phrase::KnownAboutIt => self.choose(english::KNOWN_ABOUT_IT, german::KNOWN_ABOUT_IT),
            Phrase::NotFoundTitle => self.choose(english::NOT_FOUND_TITLE, german::NOT_FOUND_TITLE),
            Phrase::NoHandleTitle => self.choose(english::NO_HANDLE_TITLE, german::NO_HANDLE_TITLE),
            Phrase::NotPublicTitle => self.choose(
                english::NOT_PUBLIC_TITLE,
                german::NOT_PUBLIC_TITLE,
            ),
            Phrase::NotDoneTitle => self.choose(english::NOT_DONE_TITLE, german::NOT_DONE_TITLE),
            Phrase::LeadsNowhereTitle => self.choose(
                english::LEADS_NOWHERE_TITLE,
                german::LEADS_NOWHERE_TITLE,
            ),
            Phrase::NoAnswerTitle => self.choose(english::NO_ANSWER_TITLE, german::NO_ANSWER_TITLE),
            Phrase::NotThere => self.choose(english::NOT_THERE, german::NOT_THERE),
            Phrase::ServerSaysNoHandle => self.choose(
                english::SERVER_SAYS_NO_HANDLE,
                german::SERVER_SAYS_NO_HANDLE,
            ),
            Phrase::NoSuchValue => self.choose(english::NO_SUCH_VALUE, german::NO_SUCH_VALUE),
            Phrase::NoSuchPrefix => self.choose(english::NO_SUCH_PREFIX, german::NO_SUCH_PREFIX),
            Phrase::Busy => self.choose(english::BUSY, german::BUSY),
            Phrase::CouldNotAnswer => self.choose(
                english::COULD_NOT_ANSWER,
                german::COULD_NOT_ANSWER,
            ),
            Phrase::NoServerAnswered => self.choose(
                english::NO_SERVER_ANSWERED,
                german::NO_SERVER_ANSWERED,
            ),
            Phrase::NameTooLong => self.choose(english::NAME_TOO_LONG, german::NAME_TOO_LONG),
            Phrase::NameNotUtf8 => self.choose(english::NAME_NOT_UTF8, german::NAME_NOT_UTF8),
            Phrase::NameWithoutSlash => self.choose(
                english::NAME_WITHOUT_SLASH,
                german::NAME_WITHOUT_SLASH,
            ),
            Phrase::NameOfBadSegment => self.choose(
                english::NAME_OF_BAD_SEGMENT,
                german::NAME_OF_BAD_SEGMENT,
            ),
            Phrase::NameWithoutMemory => self.choose(
                english::NAME_WITHOUT_MEMORY,
                german::NAME_WITHOUT_MEMORY,
            ),
            Phrase::BadIndex => self.choose(english::BAD_INDEX, german::BAD_INDEX),
            Phrase::OtherMethod => self.choose(english::OTHER_METHOD, german::OTHER_METHOD),
            Phrase::LookAtSlash => self.choose(english::LOOK_AT_SLASH, german::LOOK_AT_SLASH),
            Phrase::LookAgain => self.choose(english::LOOK_AGAIN, german::LOOK_AGAIN),
            Phrase::HandleForm => self.choose(english::HANDLE_FORM, german::HANDLE_FORM),
            Phrase::SelectOthers => self.choose(english::SELECT_OTHERS, german::SELECT_OTHERS),
            Phrase::FollowLink => self.choose(english::FOLLOW_LINK, german::FOLLOW_LINK),
            Phrase::TellGiver => self.choose(english::TELL_GIVER, german::TELL_GIVER),
            Phrase::ComeBack => self.choose(english::COME_BACK, german::COME_BACK),
            Phrase::DidYouMean => self.choose(english::DID_YOU_MEAN, german::DID_YOU_MEAN),
            Phrase::IsAlias => self.choose(english::IS_ALIAS, german::IS_ALIAS),
            Phrase::AnAlias => self.choose(english::AN_ALIAS, german::AN_ALIAS),
            Phrase::LeadsNowhere => self.choose(english::LEADS_NOWHERE, german::LEADS_NOWHERE),
            Phrase::InACircle => self.choose(english::IN_A_CIRCLE, german::IN_A_CIRCLE),
            Phrase::BeyondTen => self.choose(english::BEYOND_TEN, german::BEYOND_TEN),
            Phrase::LinkToChange => self.choose(english::LINK_TO_CHANGE, german::LINK_TO_CHANGE),
            Phrase::LinkToChangeAny => self.choose(
                english::LINK_TO_CHANGE_ANY,
                german::LINK_TO_CHANGE_ANY,
            ),
            Phrase::LinkToCreate => self.choose(english::LINK_TO_CREATE, german::LINK_TO_CREATE),
            Phrase::LinkToList => self.choose(english::LINK_TO_LIST, german::LINK_TO_LIST),
        }
    }
}
