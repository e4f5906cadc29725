//! Commands split into parts, as the history stores them.

ghost use Rattle.std.specs.Prelude.{◌≡◌, IfOk};
ghost use Rattle.gu_terms.specs.PackedEntries.{IsCommandOf};

use crate::command::{Command, GiveUp, SetLimit};
use crate::kept_texts::Given;
use crate::limit_key::KeyKind;
use crate::packed::{Body, KeptReport};
use std::alloc::{AllocError, Global};

/// Returns the stored form of a limit; adds its group and its key's name to these texts.
fn limit_parts<'a>(texts: Given<'a>, limit: &'a SetLimit) -> (Given<'a>, Body)
    ensures { IsCommandOf result.0 result.1 (Command.SetLimit limit.now) texts.entry.reply }
{
    let texts = Given {
        symbol_or_group: limit.group.name.padded(),
        account_or_key: limit.key.padded(),
        ..texts
    };
    let kind = KeyKind::of(limit.key);
    (
        texts,
        Body::SetLimit {
            kind,
            lots: limit.lots,
        },
    )
}

/// Returns the stored form of a give-up with these lines; adds the account of a single line to its texts.
fn give_up_parts<'a>(
    alloc: Global,
    texts: Given<'a>,
    give_up: &'a GiveUp,
) -> Result<(Given<'a>, Body), AllocError>
    ensures { IfOk result (λ parts. IsCommandOf parts.0 parts.1 (Command.GiveUp give_up.now) texts.entry.reply) }
{
    let texts = texts
        .with_firm(&give_up.firm)
        .with_ids(&give_up.id, &give_up.report);
    let [line] = give_up.lines.as_slice() else {
        let lines = Box::new(alloc, give_up.lines.copy()?)?;
        return Ok((texts, Body::GiveUp(lines)));
    };
    let account_or_key = line.account.name.padded();
    let lots = line.lots;
    Ok((
        Given {
            account_or_key,
            ..texts
        },
        Body::GiveUpOne { lots },
    ))
}

impl Body {
    /// Returns the stored form of a command: its texts replace the given ones, except the name in the reply.
    #[inline(always)]
    pub(crate) fn of<'a>(
        alloc: Global,
        command: &'a Command,
        texts: Given<'a>,
    ) -> Result<(Given<'a>, Body), AllocError>
        ensures { IfOk result (λ parts. IsCommandOf parts.0 parts.1 command.now texts.entry.reply) }
    {
        Ok(match command {
            Command::OpenDay(it) => (texts, Body::OpenDay { day: it.day }),
            Command::SetLimit(it) => limit_parts(texts, it),
            Command::ReportSide(it) => {
                let (report, price) = (KeptReport::of(it), it.price);
                (texts.with_report(it), Body::ReportSide { report, price })
            }
            Command::GiveUp(it) => give_up_parts(alloc, texts, it)?,
            Command::Claim(it) => (texts.with_firm(&it.firm), Body::Claim { offer: it.offer }),
            Command::Refuse(it) => {
                let (why, offer) = (it.why, it.offer);
                (texts.with_firm(&it.firm), Body::Refuse { why, offer })
            }
            Command::Reverse(it) => (texts.with_firm(&it.firm), Body::Reverse { offer: it.offer }),
        })
    }
}
