//! The words of the pages in German. Some hold markup (`<code>`); none holds a text of anyone else.

// A page, whatever it is about.

pub(crate) const LANGUAGE_TAG: &str = "de";

pub(crate) const QUESTIONS: &str = "Fragen?";

pub(crate) const FIND_ANOTHER: &str = "Ein anderes Handle suchen";

// The front page.

pub(crate) const FIND_A_HANDLE: &str = "Ein Handle suchen";

pub(crate) const AS_YOU_FOUND_IT: &str = "Ein Handle, wie Sie es gefunden haben:";

pub(crate) const GO_TO_IT: &str = "Dorthin gehen";

pub(crate) const WHAT_A_HANDLE_IS: &str =
    "Ein Handle wie <code>10/a</code> ist ein dauerhafter Name für einen Text, ein Bild oder Daten, die umziehen können. Seine Adresse hier führt dorthin, wo sie jetzt sind.";

pub(crate) const HOW_TO_SEE_VALUES: &str =
    "Eine Adresse, die auf <code>?noredirect</code> endet, etwa <code>/10/a?noredirect</code>, zeigt die Werte ihres Handles. <code>/api/handles/10/a</code> gibt sie als JSON.";

// The values of a handle.

pub(crate) const WHAT_IS_KNOWN: &str = "Was über dieses Handle bekannt ist";

pub(crate) const TYPE_AND_INDEX: &str = "Typ, Index";

pub(crate) const VALUE: &str = "Wert";

pub(crate) const WRITTEN: &str = "Geschrieben am";

pub(crate) const NOTHING_PUBLIC: &str = "Dieses Handle gibt es, aber nichts davon ist öffentlich.";

pub(crate) const AS_JSON: &str = "Für Programme: diese Werte als JSON";

pub(crate) const NOT_TEXT: &str = "Kein Text. Länge in Bytes:";

// Why values are shown where an address leads nowhere.

pub(crate) const NO_URL: &str =
    "Dieses Handle hat keine Webadresse, zu der es führt. Hier steht, was darüber bekannt ist.";

pub(crate) const URL_UNFOLLOWED: &str =
    "Der Webadresse dieses Handles, oder dem, was dieser Link ihr anfügt, wird hier nicht gefolgt. Hier steht, was über das Handle bekannt ist.";

pub(crate) const LOCATIONS_UNREAD: &str =
    "Die Liste der Orte, zu denen dieses Handle führt (10320/loc), hat einen Fehler, deshalb führt es nirgends hin. Bitte sagen Sie es der Person, von der Sie es haben. Hier steht, was darüber bekannt ist.";

pub(crate) const LOCATION_UNFOLLOWED: &str =
    "Dem Ort, den dieser Link verlangt oder der gewählt wurde, wird hier nicht gefolgt. Bitte sagen Sie es der Person, von der Sie das Handle haben. Hier steht, was darüber bekannt ist.";

// What an administrator may do.

pub(crate) const WHO_MAY_CHANGE: &str = "Wer dieses Handle ändern darf";

pub(crate) const HOLDER_OF_KEY: &str = "Der Inhaber des Schlüssels";

pub(crate) const MAY: &str = "darf";

pub(crate) const CREATE_HANDLES: &str = "Handles anlegen";

pub(crate) const DELETE_HANDLES: &str = "sie löschen";

pub(crate) const LIST_HANDLES: &str = "sie auflisten";

pub(crate) const READ_HIDDEN: &str = "Nichtöffentliches lesen";

pub(crate) const ADD_VALUES: &str = "Werte hinzufügen";

pub(crate) const CHANGE_VALUES: &str = "Werte ändern";

pub(crate) const REMOVE_VALUES: &str = "Werte entfernen";

pub(crate) const ADD_ADMINISTRATORS: &str = "Verwalter hinzufügen";

pub(crate) const CHANGE_ADMINISTRATORS: &str = "Verwalter ändern";

pub(crate) const REMOVE_ADMINISTRATORS: &str = "Verwalter entfernen";

// A handle that is gone.

pub(crate) const GONE_TITLE: &str = "Nicht mehr da: ";

pub(crate) const GONE_HEADING: &str = "Was dieses Handle benannte, gibt es nicht mehr.";

pub(crate) const KNOWN_ABOUT_IT: &str = "Was darüber bekannt ist";

// How the title of a refusal begins.

pub(crate) const NOT_FOUND_TITLE: &str = "Nicht gefunden: ";

pub(crate) const NO_HANDLE_TITLE: &str = "Kein Handle: ";

pub(crate) const NOT_PUBLIC_TITLE: &str = "Nicht öffentlich: ";

pub(crate) const NOT_DONE_TITLE: &str = "Nicht ausgeführt: ";

pub(crate) const LEADS_NOWHERE_TITLE: &str = "Führt nirgends hin: ";

pub(crate) const NO_ANSWER_TITLE: &str = "Keine Antwort: ";

// Why there are no values.

pub(crate) const NOT_THERE: &str = "Dieses Handle gibt es nicht.";

pub(crate) const SERVER_SAYS_NO_HANDLE: &str = "Der Server sagt, dass dies kein Handle ist.";

pub(crate) const NO_SUCH_VALUE: &str =
    "Dieses Handle gibt es, aber keinen solchen öffentlichen Wert.";

pub(crate) const NO_SUCH_PREFIX: &str = "Kein Server hier hat Handles, die so beginnen.";

pub(crate) const BUSY: &str = "Der Server ist ausgelastet.";

pub(crate) const COULD_NOT_ANSWER: &str = "Der Server konnte nicht antworten.";

pub(crate) const NO_SERVER_ANSWERED: &str = "Kein Server hat geantwortet.";

pub(crate) const NAME_TOO_LONG: &str = "Dies ist kein Handle: Der Name ist zu lang.";

pub(crate) const NAME_NOT_UTF8: &str = "Dies ist kein Handle: Der Name ist nicht UTF-8.";

pub(crate) const NAME_WITHOUT_SLASH: &str =
    "Dies ist kein Handle: Der Name hat keinen Schrägstrich.";

pub(crate) const NAME_OF_BAD_SEGMENT: &str =
    "Dies ist kein Handle: Der Name hat einen ungültigen Teil.";

pub(crate) const NAME_WITHOUT_MEMORY: &str = "Dies ist kein Handle: Für den Namen fehlt Speicher.";

pub(crate) const BAD_INDEX: &str = "Ein Index ist eine Zahl unter 4294967296.";

pub(crate) const OTHER_METHOD: &str = "Lesen Sie ein Handle mit GET oder HEAD.";

// What a reader may do then.

pub(crate) const LOOK_AT_SLASH: &str =
    "Bitte suchen Sie im Namen nach einem Fehler, etwa dem Schrägstrich an seinem Ende. Ist da keiner, fragen Sie die Person, von der Sie ihn haben.";

pub(crate) const LOOK_AGAIN: &str =
    "Bitte suchen Sie im Namen nach einem Fehler. Ist da keiner, fragen Sie die Person, von der Sie ihn haben.";

pub(crate) const HANDLE_FORM: &str =
    "Ein Handle ist ein Präfix, ein Schrägstrich und ein lokaler Name, etwa 10/a.";

pub(crate) const SELECT_OTHERS: &str =
    "Seine Werte sind nicht öffentlich, oder der Teil seiner Adresse nach dem Fragezeichen wählt andere aus.";

pub(crate) const FOLLOW_LINK: &str =
    "Folgen Sie einem Link zu einem Handle, oder geben Sie seine Adresse ein.";

pub(crate) const TELL_GIVER: &str =
    "Bitte sagen Sie es der Person, von der Sie es haben: Eines dieser Handles muss geändert werden.";

pub(crate) const COME_BACK: &str = "Bitte kommen Sie in einigen Minuten wieder.";

pub(crate) const DID_YOU_MEAN: &str = "Meinten Sie";

// Aliases.

pub(crate) const IS_ALIAS: &str = "ist ein Alias, der zu einem anderen Handle führt:";

pub(crate) const AN_ALIAS: &str = ", ein Alias: ";

pub(crate) const LEADS_NOWHERE: &str = "Dieses Handle führt nirgends hin.";

pub(crate) const IN_A_CIRCLE: &str = "Seine Aliasse führen im Kreis:";

pub(crate) const BEYOND_TEN: &str = "Seine Aliasse führen über zehn Handles hinaus:";

// Links to forms, below a page.

pub(crate) const LINK_TO_CHANGE: &str = "Dieses Handle ändern";

pub(crate) const LINK_TO_CHANGE_ANY: &str = "Ein Handle ändern";

pub(crate) const LINK_TO_CREATE: &str = "Ein Handle anlegen";

pub(crate) const LINK_TO_LIST: &str = "Handles auflisten";
