//! Laws of pages, and of every run over them. Each function is a law: its contract holds at all values, and its body does nothing.
ghost use Rattle.lst_pages.specs.Chains.{EntryIsSeen, EntryIsAnswer};
ghost use Rattle.lst_pages.specs.Laws.{ZerosAreRight, PageStaysRight, PageIsItsWords, FoldGoesOn, BuiltPageIsRight};
ghost use Rattle.lst_pages.specs.Numbers.{IsByNumbers};
ghost use Rattle.lst_pages.specs.Runs.{EveryRunIsSound, OtherWordsAreFree, IsSafe, IsKnown};
ghost use Rattle.lst_pages.specs.Sound.{Sound};
ghost use Rattle.lst_pages.specs.State.{Pages};
ghost use Rattle.lst_pages.specs.StateLaws.{TailsMaySettle, TailsGrow, StepsLeavePages, HearingLeavesPages, PagesAreLeft, WordsAreFree, EnabledIsSplit, PageStepsAreSound, PageStepsAreByWords, OpeningIsSound, SettledAreNumbered, FactsSettle, CommitsSettle, SettledAreOnChains};
ghost use Rattle.lst_pages.specs.Step.{IsWithin, Enabled, after, settled};
ghost use Rattle.lst_pages.specs.declared.events.PageEvent.{PageEvent};
ghost use Rattle.lst_pages.specs.declared.tails.PageTail.{PageTail};
ghost use Rattle.std.specs.Prelude.{ℕ};

/// A frame of zeros is a right page without tails, which is where a store opens.
pub fn zeros_are_a_right_page()
    ensures { ZerosAreRight }
{}

/// A page that is right stays right while tails settle, and wherever its words are copied.
pub fn pages_stay_right()
    ensures settle { PageStaysRight }
    ensures words { PageIsItsWords }
{}

/// A fold over more tails than a page has is the page and then the rest, so a page built from a right one is right.
pub fn pages_are_built_on()
    ensures fold { FoldGoesOn }
    ensures built { BuiltPageIsRight }
{}

/// An entry whose time is at most a reader's begin is what the reader sees of its column, once nothing visible on the part
/// of the chain that was walked touches the column. Of the rest of the chain the last tail that touches the column counts.
pub fn entries_are_answers()
    ensures seen { EntryIsSeen }
    ensures answer { EntryIsAnswer }
{}

/// Whatever steps are made and tails settled from the opening state on, in any order, each part of soundness holds.
pub fn every_run_is_sound()
    ensures { EveryRunIsSound }
{}

/// A step that may be made keeps each part, and so does one settled tail, or any number of them in any ranges, and whatever
/// happens to other words of the store.
pub fn steps_keep_soundness()
    ensures step { (p : Pages) → Sound p → (e : PageEvent) → IsWithin p.limits e → Enabled p e → Sound (after p e) }
    ensures settle { (p : Pages) → Sound p → (range : ℕ) (tail : PageTail) → Sound (settled p range tail) }
    ensures tails { TailsMaySettle }
    ensures others { OtherWordsAreFree }
{}

/// In a sound state what a session has in hand is right and holds the words that were found, while the session is pinned.
/// No such frame is stored into, and none that a directory word names; no two directory words name one frame.
pub fn sound_states_are_safe()
    ensures { (p : Pages) → Sound p → IsSafe p }
{}

/// In a sound state the merger knows the epoch, the directory and the frames as they are. So what it knows tells what a
/// build reads of the page that it is to replace and, with the settled tails, whether a swap may be made.
pub fn merger_knows_its_words()
    ensures { (p : Pages) → Sound p → IsKnown p }
{}

/// A step that may be made is told by the numbers of whoever makes it and the one word that it finds.
pub fn steps_are_made_by_numbers()
    ensures { (p : Pages) → Sound p → (e : PageEvent) → IsWithin p.limits e → Enabled p e → IsByNumbers p e }
{}

/// Over a sound state of the core: whatever step of the core is made, the settled tails of each range go on where they ended,
/// and words and knowledge of pages stay. So does what is known of pages where a session or the merger hears of the history.
pub fn steps_of_the_core_leave_pages()
    ensures tails { TailsGrow }
    ensures steps { StepsLeavePages }
    ensures hearing { HearingLeavesPages }
{}

/// The settled tails that words tell, by number; and what steps have found of a tail tells that it is settled, and what a page
/// folds of it: its words, with its transaction closed, or committed by the clock. Those of a record stand on its chain.
pub fn settled_tails_are_found()
    ensures numbered { SettledAreNumbered }
    ensures facts { FactsSettle }
    ensures commits { CommitsSettle }
    ensures chains { SettledAreOnChains }
{}

/// What leaves pages alone, while tails settle, leaves them sound over the words and knowledge of the core.
pub fn pages_left_alone_are_sound()
    ensures { PagesAreLeft }
{}

/// The core is as sound under any other words of pages, and any other knowledge of them, once the epoch doesn't fall: it tells
/// the same history and the same settled tails, and facts stay.
pub fn words_of_pages_are_free()
    ensures { WordsAreFree }
{}

/// A step on pages that may be made on the words and on what its session, or the merger, knows, keeps the pages sound. The
/// core stays as it was but for pages. Only a pin raises the number of pins that a session ever set, and the merger finds a
/// pin that holds the oldest retired frame only of a session that has set one. A step is told by the numbers of whoever makes
/// it and by the word that it finds.
pub fn steps_on_pages_are_sound()
    ensures enabled { EnabledIsSplit }
    ensures steps { PageStepsAreSound }
    ensures words { PageStepsAreByWords }
{}

/// When a store opens, its pages are sound over the words and the nothing that is known.
pub fn opening_pages_are_sound()
    ensures { OpeningIsSound }
{}
