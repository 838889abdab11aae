//! What is so of the definitions, apart from any call.
ghost use Rattle.std.specs.Prelude.{◌≡◌, List};
ghost use Rattle.clap.specs.Words.{Text};
ghost use Rattle.lst_layout.specs.declared.limits.Limits.{Limits};
ghost use Rattle.lst_options.specs.declared.as_of.AsOfOptions.{AsOfOptions};
ghost use Rattle.lst_options.specs.declared.crash.CrashOptions.{CrashOptions};
ghost use Rattle.lst_options.specs.declared.level.LevelOptions.{LevelOptions};
ghost use Rattle.lst_options.specs.declared.load.LoadNumbers.{LoadNumbers};
ghost use Rattle.lst_options.specs.Options.{NamesAsOf, NamesCrash, NamesLevel, NamesLimits, NamesLoad, NamesTable};

/// Words name the limits of one store at most. The contract is a law; the body does nothing.
pub fn words_name_one_store()
    ensures { (words : List Text) (limits other : Limits) → NamesLimits words limits → NamesLimits words other → limits ≡ other }
{}

/// Words name one load at most. The contract is a law; the body does nothing.
pub fn words_name_one_load()
    ensures { (words : List Text) (load other : LoadNumbers) → NamesLoad words load → NamesLoad words other → load ≡ other }
{}

/// Words name the limits of one table at most. The contract is a law; the body does nothing.
pub fn words_name_one_table()
    ensures { (words : List Text) (limits other : Limits) → NamesTable words limits → NamesTable words other → limits ≡ other }
{}

/// Words name one time at most, with the limits of one store. The contract is a law; the body does nothing.
pub fn words_name_one_time()
    ensures { (words : List Text) (options other : AsOfOptions) → NamesAsOf words options → NamesAsOf words other → options ≡ other }
{}

/// Words name one level at most, with the limits of one store. The contract is a law; the body does nothing.
pub fn words_name_one_level()
    ensures { (words : List Text) (options other : LevelOptions) → NamesLevel words options → NamesLevel words other → options ≡ other }
{}

/// Words name one disk at most, with the limits of one store. The contract is a law; the body does nothing.
pub fn words_name_one_crash()
    ensures { (words : List Text) (options other : CrashOptions) → NamesCrash words options → NamesCrash words other → options ≡ other }
{}
