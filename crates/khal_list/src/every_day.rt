//! Requests that list occurrences under each of their days.
ghost use Rattle.std.specs.Prelude.{◌≡◌, IfOk, IsErrOf, codes, option_map};
ghost use Rattle.clap.specs.Words.{subcommand_rows_of};
ghost use Rattle.ics_listing.specs.DayKeys.{day_key_rank};
ghost use Rattle.ics_listing.specs.Tokens.{IsDayToken, IsToken};
ghost use Rattle.ics_zone.specs.ZoneSaid.{display_said};
ghost use Rattle.khal_words.specs.Entries.{IsFlag};
ghost use Rattle.khal_list.specs.RequestOf as spec;

use clap::ArgMatches;
use ics_series::{DayKey, DayToken, Key, Token, TokenFault, Window, date_at};
use ics_values::Moment;
use ics_zone::Display;
use khal_words::{entry, is_given};
use std::alloc::Global;

/// A listing of occurrences under each of their days.
#[derive(Drop)]
pub struct EveryDay {
    /// The key under a day after which it continues: only entries with greater ones are listed.
    pub after: Option<DayKey>,
}

/// The keys after which a listing continues.
#[derive(Drop)]
pub(crate) struct After {
    pub(crate) once: Option<Key>,
    pub(crate) every_day: Option<EveryDay>,
}

impl After {
    /// What `--every-day` and `--after` ask for, in a window of a display zone.
    pub(crate) fn of<'a>(
        alloc: Global,
        found: &ArgMatches<'a>,
        zone: &Display,
        window: &Window,
    ) -> Result<After, TokenFault>
        requires { IsFlag (codes "every-day") (subcommand_rows_of found.now) }
        ensures ok { IfOk result (λ after. spec.IsAfterBy (subcommand_rows_of found.now) (display_said zone.now) window.now after.once after.every_day) }
        ensures bad { IsErrOf result TokenFault.BadToken → spec.IsNoToken (subcommand_rows_of found.now) }
    {
        let token = entry(found, "after");
        if is_given(found, "every-day") {
            let every_day = EveryDay {
                after: day_key_of(alloc, token, zone, window)?,
            };
            return Ok(After {
                once: None,
                every_day: Some(every_day),
            });
        }
        Ok(After {
            once: key_of(alloc, token)?,
            every_day: None,
        })
    }
}

/// The key of a token, if there is one.
fn key_of(alloc: Global, token: Option<&str>) -> Result<Option<Key>, TokenFault>
    ensures ok { IfOk result (spec.IsKeyOf (option_map (λ text. text.now) token.entry)) }
    ensures bad { IsErrOf result TokenFault.BadToken → spec.IsNoKey (option_map (λ text. text.now) token.entry) }
{
    match token {
        Some(token) => Ok(Some(Token::read(alloc, token)?)),
        None => Ok(None),
    }
}

/// The key under a day of a token, if there is one.
fn day_key_of(
    alloc: Global,
    token: Option<&str>,
    zone: &Display,
    window: &Window,
) -> Result<Option<DayKey>, TokenFault>
    ensures ok { IfOk result (spec.IsDayKeyOf (display_said zone.now) window.now (option_map (λ text. text.now) token.entry)) }
    ensures bad { IsErrOf result TokenFault.BadToken → spec.IsNoDayKey (option_map (λ text. text.now) token.entry) }
{
    match token {
        Some(token) => Ok(Some(day_key_by(alloc, token, zone, window)?)),
        None => Ok(None),
    }
}

/// The key under a day of a token: that of an entry under a day has it, and that of an entry gets it.
fn day_key_by(
    alloc: Global,
    token: &str,
    zone: &Display,
    window: &Window,
) -> Result<DayKey, TokenFault>
    ensures ok { IfOk result (λ key. spec.IsDayKeyBy (display_said zone.now) window.now token.now (day_key_rank key)) }
    ensures key { IsErrOf result TokenFault.BadToken → ¬ IsToken token.now }
    ensures day { IsErrOf result TokenFault.BadToken → ¬ IsDayToken token.now }
{
    match DayToken::read(alloc, token) {
        Err(TokenFault::BadToken) => {}
        answer => return answer,
    }
    let key = Token::read(alloc, token)?;
    let day = day_from(zone, window, key.start);
    Ok(DayKey { day, key })
}

/// The day under which a listing goes on after an occurrence with this start.
fn day_from(zone: &Display, window: &Window, start: Moment) -> i32
    ensures { result ≡ spec.day_from (display_said zone.now) window.now start }
{
    if start < window.to {
        date_at(zone, start.max(window.from))
    } else {
        i32::MAX
    }
}
