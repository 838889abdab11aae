//! The transactions of one session: an account is opened, and a transfer made.
ghost use Rattle.std.specs.Prelude.{◌≡◌, ◌≢◌, ◌<◌, ◌≤◌, [], true, IfOk, OnOk, OnErr, length};
ghost use Rattle.std.specs.Prelude.{Some};
ghost use Rattle.lst_accounts.specs.Books.{account};
ghost use Rattle.lst_session.specs.Calls.{row_seen};
ghost use Rattle.lst_session.specs.Parting.{known_by};
ghost use Rattle.lst_session.specs.Passes.{IsReady};
ghost use Rattle.lst_embedded.specs.Deeds.{IsOpening, IsMove};
ghost use Rattle.lst_embedded.specs.Doing.{IsBank, HasAdded, HasDone, HasMade, GoesOn};

use lst_accounts::{Transfer, account, balance_in, new_balance};
use lst_model::Key;
use lst_rule::Store;
use lst_session::{Session, WriteRefusal};
use std::thread::yield_now;

/// The keys of the accounts are those below this number.
const ACCOUNTS: u64 = 8;

/// What each account is opened with.
const OPENING_BALANCE: u64 = 1_000;

/// How many transfers each teller makes.
const TRANSFERS: u64 = 25;

/// How often a transfer is begun, at most.
const ATTEMPTS: u32 = 24;

/// What becomes of a transaction that is refused something.
#[derive(Clone, Copy, PartialEq, Eq, Debug)]
pub enum Stop {
    /// It is made anew: what it read is old, or another session is in its way.
    Anew,
    /// The bank closes early: memory, the limits, the attempts or a payer's balance don't suffice.
    Close,
}

impl From<WriteRefusal> for Stop {
    fn from(refusal: WriteRefusal) -> Stop {
        match refusal {
            WriteRefusal::Latched | WriteRefusal::Unfinished { .. } | WriteRefusal::Newer { .. } =>
                { Stop::Anew }
            _ => Stop::Close,
        }
    }
}

/// Opens all accounts, each in a transaction of its own.
pub(crate) fn open_accounts(store: &Store, banker: &mut Session) -> Result<(), Stop>
    requires bank { IsBank store.now }
    requires ready { IsReady store.now banker.old }
    ensures { OnOk result (HasDone store.now IsOpening banker.old banker.new 8) }
{
    for key in 0..ACCOUNTS {
        banker.begin(store).or(Err(Stop::Close))?;
        banker.insert(store, key, &account(OPENING_BALANCE))?;
        banker.try_commit(store).or(Err(Stop::Close))?;
    }
    Ok(())
}

/// The balance that the open transaction sees of an account.
fn balance(store: &Store, session: &mut Session, key: Key) -> Result<u64, Stop>
    requires ready { IsReady store.now session.old }
    requires opened { (known_by session.old).is_open ≡ true }
    ensures ready { IsReady store.now session.new }
    ensures goes { GoesOn session.old session.new (known_by session.old).own }
    ensures seen { IfOk result (λ balance. row_seen (known_by session.new) key ≡ Some (account balance)) }
{
    match session.get(store, key) {
        Ok(Some(row)) => balance_in(&row).ok_or(Stop::Close),
        Ok(None) => Err(Stop::Close),
        Err(_) => unreachable!(),
    }
}

/// Makes a transfer in the open transaction, which has no writes before, and commits it.
fn make(store: &Store, session: &mut Session, transfer: &Transfer) -> Result<(), Stop>
    requires bank { IsBank store.now }
    requires ready { IsReady store.now session.old }
    requires opened { (known_by session.old).is_open ≡ true }
    requires early { (known_by session.old).begin ≤ length (known_by session.old).seen }
    requires none { (known_by session.old).own ≡ [] }
    requires differ { transfer.now.from ≢ transfer.now.to }
    requires some { 0 < transfer.now.amount }
    ensures ready { IsReady store.now session.new }
    ensures ok { OnOk result (HasMade IsMove session.old session.new 1) }
    ensures err { OnErr result (HasAdded session.old session.new []) }
{
    let payer = balance(store, session, transfer.from)?;
    let payee = balance(store, session, transfer.to)?;
    let (payer, payee) = transfer.balances(payer, payee).ok_or(Stop::Close)?;
    session.update(store, transfer.from, &new_balance(payer))?;
    session.update(store, transfer.to, &new_balance(payee))?;
    session.try_commit(store).or(Err(Stop::Anew))?;
    Ok(())
}

/// Makes a transfer in a transaction of its own, which is begun anew where it is refused for now, each time after twice as long a wait.
fn transfer(store: &Store, session: &mut Session, transfer: &Transfer) -> Result<(), Stop>
    requires bank { IsBank store.now }
    requires ready { IsReady store.now session.old }
    requires differ { transfer.now.from ≢ transfer.now.to }
    requires some { 0 < transfer.now.amount }
    ensures ready { IsReady store.now session.new }
    ensures ok { OnOk result (HasMade IsMove session.old session.new 1) }
{
    for attempt in 0..ATTEMPTS {
        session.begin(store).or(Err(Stop::Close))?;
        match make(store, session, transfer) {
            Err(Stop::Anew) => {
                let _ = session.abort(store);
            }
            made => return made,
        }
        for _ in 0..1_u32 << attempt {
            yield_now();
        }
    }
    Err(Stop::Close)
}

/// The transfer that a teller makes next, once it has made so many: the two tellers go the same round of the accounts, one up and one down, so they meet.
fn planned(made: u64, up: bool) -> Transfer
    ensures differ { result.from ≢ result.to }
    ensures some { 0 < result.amount }
{
    let here = made % ACCOUNTS;
    let next = (here + 1) % ACCOUNTS;
    let (from, to) = if up { (here, next) } else { (next, here) };
    let amount = 1 + made % 5;
    Transfer { from, to, amount }
}

/// A teller makes its transfers, one after another.
pub(crate) fn work(store: &Store, teller: &mut Session, up: bool) -> Result<(), Stop>
    requires bank { IsBank store.now }
    requires ready { IsReady store.now teller.old }
    ensures { OnOk result (HasDone store.now IsMove teller.old teller.new 25) }
{
    for made in 0..TRANSFERS {
        transfer(store, teller, &planned(made, up))?;
    }
    Ok(())
}
