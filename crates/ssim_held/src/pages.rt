//! Messages in order of reference, on pages.

ghost use Rattle.std.specs.Prelude.{◌≡◌, ◌≤◌, ◌<◌, ◌+◌, ◌++◌, ◌∷◌, [], List, All, length, take, drop};
ghost use Rattle.std.specs.Prelude.{slice_get, slice_set, Some, IfOk, IfErr, OnOk, OnErr, IsTrue, ◌↔◌};
ghost use Rattle.std.specs.List.{insert, remove};
ghost use Rattle.std.specs.declared.cmp.Ordering.TheVariants.{Greater};
ghost use Rattle.ssim_held.specs.Held.{reference_cmp};
ghost use Rattle.ssim_held.specs.Entries.{AreRising, Entry};
ghost use Rattle.ssim_held.specs.clauses.Ordered.{Belongs};
ghost use Rattle.ssim_held.specs.clauses.Pages.{BelongsOn, IsFilled, IsGap, IsHeldOn, all_of};
ghost use Rattle.ssim_held.specs.clauses.Pages.{position};
ghost use Rattle.ssim_held.specs.clauses.Pages.{position_on};

use crate::held::Held;
use crate::lookup::{compare, search};
use ssim_text::Reference;
use ssim_values::Memory;
use std::alloc::Global;
use std::cmp::Ordering;
use std::marker::Model;

/// How many messages a page has at most.
const FULL: usize = 512;

/// Messages in order of reference, on pages. A message that is put between others moves only the
/// later ones of its page, so messages may come in any order.
///
/// Contracts see the lists of its pages.
#[derive(Drop)]
pub struct Pages {
    pages: Vec<Page>,
    alloc: Global,
}

impl Model for Pages {
    ghost use Rattle.std.specs.Prelude.{List, All};
    ghost use Rattle.ssim_held.specs.Entries.{Entry};
    ghost use Rattle.ssim_held.specs.clauses.Pages.{IsFilled};

    ghost Value = { List (List Entry) };

    ghost view = { λ p. p.pages.items };

    ghost invariant = { λ p. All IsFilled p.pages.items };
}

/// A message, or the gap before it, by the number of its page and its number there, both from 0.
#[derive(Clone, Copy, Debug, PartialEq, Eq)]
pub struct PagePlace {
    pub page: usize,
    pub at: usize,
}

// Some messages, one at least.
#[derive(Drop)]
struct Page {
    held: Vec<Held>,
}

impl Model for Page {
    ghost use Rattle.std.specs.Prelude.{List};
    ghost use Rattle.ssim_held.specs.Entries.{Entry};

    ghost Value = { List Entry };

    ghost view = { λ p. p.held.items };
}

impl Page {
    // A page with one message, and room for more.
    fn of_one(alloc: Global, one: Held) -> Result<Page, Memory>
        ensures { IfOk result (λ page. page ≡ one ∷ []) }
    {
        let mut held = Vec::with_capacity(alloc, FULL)?;
        held.push(one)?;
        Ok(Page { held })
    }

    // How many messages it has.
    fn len(&self) -> usize
        ensures { result ≡ length self.now }
    {
        self.held.len()
    }

    // The messages.
    fn held(&self) -> &[Held]
        ensures { result.now ≡ self.now }
    {
        &self.held
    }

    // Puts a message before the one at this position.
    fn insert(&mut self, at: usize, new: Held) -> Result<(), Memory>
        requires { at ≤ length self.old }
        ensures ok { OnOk result (self.new ≡ insert self.old at new) }
        ensures err { OnErr result (self.new ≡ self.old) }
    {
        self.held.insert(at, new)?;
        Ok(())
    }

    // Takes away the message at this position.
    fn remove(&mut self, at: usize)
        requires { at < length self.old }
        ensures { self.new ≡ remove self.old at }
    {
        self.held.remove(at);
    }

    // Takes away the messages from this position on.
    fn split_off(&mut self, at: usize) -> Result<Page, Memory>
        requires { at ≤ length self.old }
        ensures kept { OnOk result (self.new ≡ take at self.old) }
        ensures later { IfOk result (λ later. later ≡ drop at self.old) }
        ensures err { OnErr result (self.new ≡ self.old) }
    {
        Ok(Page {
            held: self.held.split_off(at)?,
        })
    }
}

impl Pages {
    /// The pages of messages that are in order of reference.
    pub fn of(alloc: Global, held: Vec<Held>) -> Result<Pages, Memory>
        ensures { IfOk result (λ pages. all_of pages ≡ held.items) }
    {
        let mut pages = Vec::new(alloc);
        for one in held {
            push(alloc, &mut pages, one)?;
        }
        Ok(Pages { pages, alloc })
    }

    /// The place of a reference, or the place where it belongs.
    pub fn search(&self, reference: &Reference) -> Result<PagePlace, PagePlace>
        requires { AreRising (all_of self.now) }
        ensures found { IfOk result (IsHeldOn self.now reference.now) }
        ensures absent { IfErr result (BelongsOn self.now reference.now) }
    {
        if self.pages.is_empty() {
            return Err(PagePlace { page: 0, at: 0 });
        }
        let page = page_of(&self.pages, reference);
        match search(self.pages[page].held(), reference) {
            Ok(at) => Ok(PagePlace { page, at }),
            Err(at) => Err(PagePlace { page, at }),
        }
    }

    /// The message at a place.
    pub fn at(&self, place: PagePlace) -> &Held
        requires { (page : List Entry) × (slice_get self.now place.page ≡ Some page)
            × (place.at < length page) }
        ensures { slice_get (all_of self.now) (position self.now place) ≡ Some result.now }
    {
        &self.pages[place.page].held()[place.at]
    }

    /// Puts a message into a gap.
    pub fn insert(&mut self, place: PagePlace, new: Held) -> Result<(), Memory>
        requires { IsGap self.old place }
        ensures ok { OnOk result
            (all_of self.new ≡ insert (all_of self.old) (position self.old place) new) }
        ensures err { OnErr result (all_of self.new ≡ all_of self.old) }
    {
        insert(self.alloc, &mut self.pages, place, new)
    }

    /// Takes away the message at a place. Allocates nothing.
    pub fn remove(&mut self, place: PagePlace)
        requires { (page : List Entry) × (slice_get self.old place.page ≡ Some page)
            × (place.at < length page) }
        ensures { all_of self.new ≡ remove (all_of self.old) (position self.old place) }
    {
        remove(&mut self.pages, place)
    }

    /// The messages in their order.
    pub fn into_held(self) -> Result<Vec<Held>, Memory>
        ensures { IfOk result (λ held. held.items ≡ all_of self) }
    {
        let Pages { pages, alloc } = self;
        let mut held = Vec::new(alloc);
        for page in pages {
            let Page { held: mut more } = page;
            held.append(&mut more)?;
        }
        Ok(held)
    }
}

// Adds a message after all others.
fn push(alloc: Global, pages: &mut Vec<Page>, one: Held) -> Result<(), Memory>
    ensures ok { OnOk result (all_of pages.new.items ≡ all_of pages.old.items ++ one ∷ []) }
    ensures filled { All IsFilled pages.old.items → All IsFilled pages.new.items }
{
    let count = pages.len();
    if count > 0 && pages[count - 1].len() < FULL {
        let last = &mut pages[count - 1];
        let at = last.len();
        last.insert(at, one)
    } else {
        pages.push(Page::of_one(alloc, one)?)?;
        Ok(())
    }
}

// The number of the page on which a reference belongs.
fn page_of(pages: &[Page], reference: &Reference) -> usize
    requires some { 0 < length pages.now }
    requires filled { All IsFilled pages.now }
    requires rising { AreRising (all_of pages.now) }
    ensures within { result < length pages.now }
    ensures belongs { Belongs (all_of pages.now) reference.now (position_on pages.now result 0)
        (position_on pages.now (result + 1) 0) }
{
    let mut low = 0;
    let mut high = pages.len();
    while high - low > 1 {
        let middle = low + (high - low) / 2;
        if begins_after(&pages[middle], reference) {
            high = middle;
        } else {
            low = middle;
        }
    }
    low
}

// Whether the first message of a page has a greater reference.
fn begins_after(page: &Page, reference: &Reference) -> bool
    requires { IsFilled page.now }
    ensures { (e : Entry) × (slice_get page.now 0 ≡ Some e)
        × (IsTrue result ↔ (reference_cmp e.reference reference.now ≡ Greater)) }
{
    match compare(&page.held()[0], reference) {
        Ordering::Greater => true,
        _ => false,
    }
}

// Puts a message into a gap. If the page is full, it is divided first.
fn insert(alloc: Global, pages: &mut Vec<Page>, place: PagePlace, new: Held) -> Result<(), Memory>
    requires { IsGap pages.old.items place }
    ensures ok { OnOk result
        (all_of pages.new.items
        ≡ insert (all_of pages.old.items) (position pages.old.items place) new) }
    ensures err { OnErr result (all_of pages.new.items ≡ all_of pages.old.items) }
    ensures filled { All IsFilled pages.old.items → All IsFilled pages.new.items }
{
    if place.page == pages.len() {
        pages.push(Page::of_one(alloc, new)?)?;
        return Ok(());
    }
    let place = divided(pages, place)?;
    pages[place.page].insert(place.at, new)
}

// Divides the page of a gap if it is full. Returns the place of the gap.
fn divided(pages: &mut Vec<Page>, place: PagePlace) -> Result<PagePlace, Memory>
    requires on { (page : List Entry) × (slice_get pages.old.items place.page ≡ Some page)
        × (place.at ≤ length page) }
    ensures all { all_of pages.new.items ≡ all_of pages.old.items }
    ensures filled { All IsFilled pages.old.items → All IsFilled pages.new.items }
    ensures on { IfOk result (λ gap. (page : List Entry)
        × (slice_get pages.new.items gap.page ≡ Some page) × (gap.at ≤ length page)) }
    ensures position { IfOk result
        (λ gap. position pages.new.items gap ≡ position pages.old.items place) }
{
    if pages[place.page].len() < FULL {
        return Ok(place);
    }
    divide(pages, place.page)?;
    if place.at <= FULL / 2 {
        Ok(place)
    } else {
        Ok(PagePlace {
            page: place.page + 1,
            at: place.at - FULL / 2,
        })
    }
}

// Divides a page into two.
fn divide(pages: &mut Vec<Page>, number: usize) -> Result<(), Memory>
    requires full { (page : List Entry) × (slice_get pages.old.items number ≡ Some page)
        × (512 ≤ length page) }
    ensures ok { OnOk result ((page : List Entry) → slice_get pages.old.items number ≡ Some page
        → pages.new.items ≡ insert (slice_set pages.old.items number (take 256 page)) (number + 1)
        (drop 256 page)) }
    ensures err { OnErr result (pages.new.items ≡ pages.old.items) }
{
    pages.reserve(1)?;
    let later = pages[number].split_off(FULL / 2)?;
    pages.insert(number + 1, later).unwrap();
    Ok(())
}

// Takes away the message at a place, and its page if it was the only one there.
fn remove(pages: &mut Vec<Page>, place: PagePlace)
    requires on { (page : List Entry) × (slice_get pages.old.items place.page ≡ Some page)
        × (place.at < length page) }
    ensures all { all_of pages.new.items
        ≡ remove (all_of pages.old.items) (position pages.old.items place) }
    ensures filled { All IsFilled pages.old.items → All IsFilled pages.new.items }
{
    let page = &mut pages[place.page];
    page.remove(place.at);
    if page.len() == 0 {
        pages.remove(place.page);
    }
}
