ghost use Rattle.std.specs.Prelude.{◌≡◌};
ghost use Rattle.form_fields.specs.Words.{text_of, prefix_of, keys_of};

/// The kinds of table in the forms: the top table of each form, and the tables of its arrays.
#[derive(Clone, Copy, Debug, PartialEq, Eq)]
pub enum Section {
    Manifest,
    Component,
    Layouts,
    Layout,
    Declaration,
    Use,
    Lists,
    Class,
    Shared,
    Method,
    Callback,
    Static,
    Office,
    Party,
}

/// The keys of these tables.
#[derive(Clone, Copy, Debug, PartialEq, Eq)]
pub enum Key {
    AppealDays,
    Application,
    Bundled,
    Callback,
    Categories,
    Class,
    Classes,
    Clicks,
    Component,
    Copies,
    Default,
    DexFiles,
    From,
    Kind,
    Large,
    Layout,
    Method,
    Name,
    Named,
    Package,
    Parents,
    Party,
    Platform,
    Port,
    Positions,
    Proto,
    Puts,
    Reflective,
    Result,
    Role,
    Rows,
    Shared,
    Sink,
    Source,
    Sources,
    Static,
    Stores,
    Strict,
    Token,
    Type,
    Use,
    Workers,
}

impl Key {
    /// The key as it stands in a table.
    #[tactic(auto, unfolding(crate::specs::Words::text_of))]
    pub fn text(self) -> &'static str
        ensures { result.now ≡ text_of self }
    {
        match self {
            Key::AppealDays => "appeal_days",
            Key::Application => "application",
            Key::Bundled => "bundled",
            Key::Callback => "callback",
            Key::Categories => "categories",
            Key::Class => "class",
            Key::Classes => "classes",
            Key::Clicks => "clicks",
            Key::Component => "component",
            Key::Copies => "copies",
            Key::Default => "default",
            Key::DexFiles => "dex_files",
            Key::From => "from",
            Key::Kind => "kind",
            Key::Large => "large",
            Key::Layout => "layout",
            Key::Method => "method",
            Key::Name => "name",
            Key::Named => "named",
            Key::Package => "package",
            Key::Parents => "parents",
            Key::Party => "party",
            Key::Platform => "platform",
            Key::Port => "port",
            Key::Positions => "positions",
            Key::Proto => "proto",
            Key::Puts => "puts",
            Key::Reflective => "reflective",
            Key::Result => "result",
            Key::Role => "role",
            Key::Rows => "rows",
            Key::Shared => "shared",
            Key::Sink => "sink",
            Key::Source => "source",
            Key::Sources => "sources",
            Key::Static => "static",
            Key::Stores => "stores",
            Key::Strict => "strict",
            Key::Token => "token",
            Key::Type => "type",
            Key::Use => "use",
            Key::Workers => "workers",
        }
    }
}

impl Section {
    /// What stands before a key of this section where the key is named.
    #[tactic(auto, unfolding(crate::specs::Words::prefix_of))]
    pub fn prefix(self) -> &'static str
        ensures { result.now ≡ prefix_of self }
    {
        match self {
            Section::Manifest => "",
            Section::Component => "component.",
            Section::Layouts => "",
            Section::Layout => "layout.",
            Section::Declaration => "",
            Section::Use => "use.",
            Section::Lists => "",
            Section::Class => "class.",
            Section::Shared => "shared.",
            Section::Method => "method.",
            Section::Callback => "callback.",
            Section::Static => "static.",
            Section::Office => "",
            Section::Party => "party.",
        }
    }

    /// The keys that a table of this section may have, in the order in which they are tested.
    #[tactic(auto, unfolding(crate::specs::Words::keys_of))]
    pub fn keys(self) -> &'static [Key]
        ensures { result.now ≡ keys_of self }
    {
        match self {
            Section::Manifest => &[
                Key::Package,
                Key::DexFiles,
                Key::Application,
                Key::Component,
                Key::Named,
            ],
            Section::Component => &[Key::Kind, Key::Class],
            Section::Layouts => &[Key::Layout],
            Section::Layout => &[Key::Name, Key::Clicks, Key::Classes],
            Section::Declaration => &[Key::Use],
            Section::Use => &[Key::Source, Key::Sink],
            Section::Lists => &[
                Key::Rows,
                Key::Categories,
                Key::Class,
                Key::Shared,
                Key::Method,
                Key::Callback,
                Key::Strict,
                Key::Platform,
                Key::Bundled,
                Key::Static,
                Key::Large,
            ],
            Section::Class => &[Key::Name, Key::Parents, Key::Default],
            Section::Shared => &[Key::Name, Key::Class],
            Section::Method => &[
                Key::Class,
                Key::Name,
                Key::Proto,
                Key::Static,
                Key::Result,
                Key::From,
                Key::Shared,
                Key::Puts,
                Key::Stores,
                Key::Copies,
                Key::Source,
                Key::Sink,
                Key::Positions,
                Key::Reflective,
            ],
            Section::Callback => &[Key::Class, Key::Name, Key::Proto, Key::Sources],
            Section::Static => &[Key::Class, Key::Name, Key::Type, Key::Source],
            Section::Office => &[Key::Port, Key::Workers, Key::AppealDays, Key::Party],
            Section::Party => &[Key::Name, Key::Role, Key::Token],
        }
    }
}
