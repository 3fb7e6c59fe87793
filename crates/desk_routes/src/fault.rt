ghost use Rattle.std.specs.Prelude.{◌≡◌, ◌++◌, IfOk, codes};
ghost use Rattle.desk_routes.specs.Faults.{key_of, status_of, text_of, answer_to};

use desk_answers::error_answer;
use desk_http::Answer;
use std::alloc::Global;
use vet_base::Memory;

/// A field of a body.
#[derive(Clone, Copy)]
pub(crate) enum Field {
    Declaration,
    Developer,
    Dex,
    Layouts,
    Manifest,
    Reference,
    Ruling,
    Text,
}

/// Why a request is no command.
#[derive(Clone, Copy)]
pub(crate) enum Fault {
    /// The target is that of no page.
    NoRoute,
    /// The page has no such method.
    NoMethod,
    /// The token is missing, or nobody has it.
    NoToken,
    /// The party's role does not ask this.
    WrongRole,
    /// The body is no JSON.
    NotJson,
    /// The field is missing, of a wrong type or out of its limits.
    Bad(Field),
}

impl Field {
    /// The key of the field.
    #[tactic(auto, unfolding(crate::specs::Faults::key_of))]
    pub(crate) fn key(self) -> &'static str
        ensures { result.now ≡ key_of self }
    {
        match self {
            Field::Declaration => "declaration",
            Field::Developer => "developer",
            Field::Dex => "dex",
            Field::Layouts => "layouts",
            Field::Manifest => "manifest",
            Field::Reference => "reference",
            Field::Ruling => "ruling",
            Field::Text => "text",
        }
    }

    /// What is said where it is wrong.
    #[tactic(auto, unfolding(crate::specs::Faults::key_of))]
    fn refusal(self) -> &'static [u8]
        ensures { result.now ≡ codes "field " ++ key_of self }
    {
        match self {
            Field::Declaration => b"field declaration",
            Field::Developer => b"field developer",
            Field::Dex => b"field dex",
            Field::Layouts => b"field layouts",
            Field::Manifest => b"field manifest",
            Field::Reference => b"field reference",
            Field::Ruling => b"field ruling",
            Field::Text => b"field text",
        }
    }
}

impl Fault {
    fn status(self) -> u16
        ensures { result ≡ status_of self }
    {
        match self {
            Fault::NoRoute => 404,
            Fault::NoMethod => 405,
            Fault::NoToken => 401,
            Fault::WrongRole => 403,
            Fault::NotJson => 400,
            Fault::Bad(_) => 422,
        }
    }

    #[tactic(auto, unfolding(crate::specs::Faults::text_of))]
    fn text(self) -> &'static [u8]
        ensures { result.now ≡ text_of self }
    {
        match self {
            Fault::NoRoute => b"no route",
            Fault::NoMethod => b"no such method",
            Fault::NoToken => b"no such token",
            Fault::WrongRole => b"wrong role",
            Fault::NotJson => b"not json",
            Fault::Bad(field) => field.refusal(),
        }
    }

    /// The answer to such a request.
    pub(crate) fn answer(self, alloc: Global) -> Result<Answer, Memory>
        ensures { IfOk result (λ answer. answer ≡ answer_to self) }
    {
        error_answer(alloc, self.status(), self.text())
    }
}
