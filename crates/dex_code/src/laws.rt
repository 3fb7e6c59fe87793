ghost use Rattle.dex_code.specs.CodeLaws.{CodeLaws};

/// What holds of all code of methods and of every act. It does nothing: a caller proves by its contract.
pub fn code_laws()
    ensures { CodeLaws }
{}
