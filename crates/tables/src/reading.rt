//! What is asked of tables, as texts of the command line.

ghost use Rattle.std.specs.Prelude.{◌≡◌};
ghost use Rattle.route_meaning.specs.History.{History};
ghost use Rattle.tables.specs.Tables.{moment_in};

use crate::form::Form;
use crate::matching::Numbers;
use crate::scope::Scope;
use archive_calls::RouteSource;
use route_meaning::Select;
use route_model::{Moment, Prefix};
use route_text::{BadText, read_moment, read_number, read_prefix};
use service::{Comparing, Dumping, Finding, Listing, read_peer};

/// Which text of the command line isn't valid.
#[derive(Clone, Copy, Debug, PartialEq, Eq)]
pub enum BadArgument {
    Form,
    Moment,
    Peer,
    Prefix,
    AsNumber,
    /// More than one of the options that say which prefixes are meant.
    Scope,
}

/// Which table is asked for, and how its rows are written.
#[derive(Clone, Copy, Debug)]
pub struct Table {
    pub form: Form,
    /// None for the last moment that is settled.
    pub at: Option<Moment>,
    pub select: Select,
}

/// Which tables are compared.
#[derive(Clone, Copy, Debug)]
pub struct Comparison {
    pub from: Moment,
    pub to: Moment,
    /// Only prefixes inside this one, if it is there.
    pub within: Option<Prefix>,
}

/// What is searched for.
#[derive(Clone, Copy, Debug)]
pub struct Search {
    pub scope: Scope,
    /// None if the routes of one moment are asked for, and not what happened.
    pub since: Option<Moment>,
    /// None for the last moment that is settled.
    pub until: Option<Moment>,
    pub numbers: Numbers,
}

fn read_at(text: Option<&str>) -> Result<Option<Moment>, BadArgument> {
    let Some(text) = text else {
        return Ok(None);
    };
    match read_moment(text) {
        Ok(moment) => Ok(Some(moment)),
        Err(BadText) => Err(BadArgument::Moment),
    }
}

/// Which rows a table has: all, if no words name a peer.
fn read_select(peer: &[&str]) -> Result<Select, BadArgument> {
    let [collector, address, as_number] = peer else {
        return if peer.is_empty() {
            Ok(Select::All)
        } else {
            Err(BadArgument::Peer)
        };
    };
    match read_peer(collector, address, as_number) {
        Ok(peer) => Ok(Select::PeerTable(peer)),
        Err(BadText) => Err(BadArgument::Peer),
    }
}

/// The table that `dump` asks for.
pub fn read_table(asked: &Dumping<'_>) -> Result<Table, BadArgument> {
    let Some(form) = Form::named(asked.format) else {
        return Err(BadArgument::Form);
    };
    let at = read_at(asked.at)?;
    let select = read_select(asked.peer.as_slice())?;
    Ok(Table { form, at, select })
}

/// The moment that `peers` asks for, if it names one.
pub fn read_listing(asked: &Listing<'_>) -> Result<Option<Moment>, BadArgument> {
    read_at(asked.at)
}

fn read_within(text: Option<&str>) -> Result<Option<Prefix>, BadArgument> {
    let Some(text) = text else {
        return Ok(None);
    };
    match read_prefix(text) {
        Ok(prefix) => Ok(Some(prefix)),
        Err(BadText) => Err(BadArgument::Prefix),
    }
}

/// The tables that `diff` asks for.
pub fn read_comparison(asked: &Comparing<'_>) -> Result<Comparison, BadArgument> {
    let (Ok(from), Ok(to)) = (read_moment(asked.from), read_moment(asked.to)) else {
        return Err(BadArgument::Moment);
    };
    let within = read_within(asked.within)?;
    Ok(Comparison { from, to, within })
}

fn read_as(text: Option<&str>) -> Result<Option<u32>, BadArgument> {
    let Some(text) = text else {
        return Ok(None);
    };
    match read_number(text, u64::from(u32::MAX)) {
        Ok(number) => Ok(Some(number as u32)),
        Err(BadText) => Err(BadArgument::AsNumber),
    }
}

/// Which prefixes are meant, beside the one that is named: itself, if no option says more.
fn read_scope(asked: &Finding<'_>) -> Result<Scope, BadArgument> {
    let Ok(prefix) = read_prefix(asked.prefix) else {
        return Err(BadArgument::Prefix);
    };
    match (asked.exact, asked.more, asked.less) {
        (_, false, false) => Ok(Scope::Exact(prefix)),
        (false, true, false) => Ok(Scope::More(prefix)),
        (false, false, true) => Ok(Scope::Less(prefix)),
        _ => Err(BadArgument::Scope),
    }
}

/// What `find` asks for.
pub fn read_search(asked: &Finding<'_>) -> Result<Search, BadArgument> {
    let scope = read_scope(asked)?;
    let since = read_at(asked.since)?;
    let until = read_at(asked.until)?;
    let origin = read_as(asked.origin)?;
    let via = read_as(asked.via)?;
    Ok(Search {
        scope,
        since,
        until,
        numbers: Numbers { origin, via },
    })
}

/// The moment that is asked for, or else the last that is settled; if none is, the first of all, which is refused then.
pub fn moment_of<A: RouteSource>(archive: &A, at: Option<Moment>) -> Moment
    ensures moment { (h : History) → A.represents archive.now h → result ≡ moment_in h at }
{
    if let Some(moment) = at {
        return moment;
    }
    let settled = archive.settled().number();
    match Moment::new(settled.saturating_sub(1)) {
        Some(moment) => moment,
        None => unreachable!(),
    }
}
