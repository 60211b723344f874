//! The messages of a desk, as they are on a page.

ghost use Rattle.std.specs.Prelude.{◌≡◌, ◌++◌, IfOk, OnOk, drop};
ghost use Rattle.ssim_desk.specs.Desk.{finding_lines};
ghost use Rattle.ssim_page.specs.Messages.{message_article};
ghost use Rattle.ssim_text.specs.Canonical.{canonical};
ghost use Rattle.ssim_program.specs.print.Page.{message_articles, sub_line, sub_lines};

use crate::print::finding::push_counts;
use ssim_base::ResolvedSub;
use ssim_desk::{FindingLine, Held, Holdings};
use ssim_page::{push_message, push_sub_begin};
use ssim_values::Memory;
use std::alloc::Global;

/// An article for each message that the desk holds, in order.
pub(crate) fn articles_of(alloc: Global, desk: &Holdings) -> Result<Vec<u8>, Memory>
    ensures { IfOk result
        (λ articles. articles.items ≡ message_articles desk.now.held (finding_lines desk.now)) }
{
    let findings = desk.findings()?;
    let mut articles = Vec::new(alloc);
    push_articles(alloc, &mut articles, desk.held(), &findings)?;
    Ok(articles)
}

/// Adds the articles of messages, given the findings of all their sub-messages.
fn push_articles(
    alloc: Global,
    articles: &mut Vec<u8>,
    held: &[Held],
    findings: &[FindingLine],
) -> Result<(), Memory>
    ensures { OnOk result
        (articles.new.items ≡ articles.old.items ++ message_articles held.now findings.now) }
{
    let mut left = findings;
    for message in held {
        push_article(alloc, articles, message, left)?;
        left = after(left, message.dates().len());
    }
    Ok(())
}

/// The findings after a number of them.
fn after(findings: &[FindingLine], count: usize) -> &[FindingLine]
    ensures { result.now ≡ drop count findings.now }
{
    &findings[count.min(findings.len())..]
}

/// Adds the article of a message, whose findings come first in these.
fn push_article(
    alloc: Global,
    articles: &mut Vec<u8>,
    message: &Held,
    findings: &[FindingLine],
) -> Result<(), Memory>
    ensures { OnOk result (articles.new.items ≡ articles.old.items ++ message_article
        message.now.reference (sub_lines message.now.dates findings.now)
        (canonical message.now.message)) }
{
    let mut subs = Vec::new(alloc);
    push_subs(&mut subs, message.dates(), findings)?;
    push_message(alloc, articles, &message.reference(), &subs, message.text())
}

/// Adds the lines of sub-messages with these full dates, of which these are the first findings.
fn push_subs(
    lines: &mut Vec<u8>,
    dates: &[ResolvedSub],
    findings: &[FindingLine],
) -> Result<(), Memory>
    ensures { OnOk result
        (lines.new.items ≡ lines.old.items ++ sub_lines dates.now findings.now) }
{
    match (dates.split_first(), findings.split_first()) {
        (Some((dated, dates)), Some((found, findings))) => {
            push_sub(lines, dated, found)?;
            push_subs(lines, dates, findings)
        }
        _ => Ok(()),
    }
}

/// Adds the line of a sub-message.
fn push_sub(lines: &mut Vec<u8>, dated: &ResolvedSub, found: &FindingLine) -> Result<(), Memory>
    ensures { OnOk result (lines.new.items ≡ lines.old.items ++ sub_line dated.now found.now) }
{
    push_sub_begin(lines, found.action, found.designator, dated.period)?;
    push_counts(lines, &found.finding)
}
