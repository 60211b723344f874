//! Messages.
ghost use Rattle.std.specs.Prelude.{◌≡◌, ◌↔◌, IfOk, IsTrue};
ghost use Rattle.ssim_text.specs.Message.{begun, message_of, with_sub, with_free};
ghost use Rattle.ssim_text.specs.Canonical.{canonical};
ghost use Rattle.ssim_text.specs.Grammar.{IsShape};
ghost use Rattle.ssim_text.specs.clauses.Bounds.{AreSubsBounded, IsReferenceBounded};
ghost use Rattle.ssim_text.specs.clauses.Bounds.{AreFreeLinesBounded};
ghost use Rattle.ssim_text.specs.Spelling.{SpellsMessage};

use crate::action::Sub;
use crate::encoder::{push_free, push_kind, push_mode, push_originator, push_subs};
use crate::kind::Kind;
use crate::originator::Originator;
use crate::reference::GivenReference;
use ssim_values::{Memory, TimeMode};
use std::alloc::{AllocError, Global};
use std::marker::Model;

/// A line of free text: bytes from 32 to 126, the last of them no blank.
#[derive(Clone, Debug, Drop)]
pub struct FreeLine {
    bytes: Vec<u8>,
}

impl Model for FreeLine {
    ghost use Rattle.std.specs.Prelude.{List, ℕ};

    ghost Value = { List ℕ };

    ghost view = { λ l. l.bytes.items };
}

impl FreeLine {
    fn kept(alloc: Global, line: &[u8]) -> Result<FreeLine, AllocError>
        ensures { IfOk result (λ l. l ≡ line.now) }
    {
        Ok(FreeLine {
            bytes: Vec::from_slice(alloc, line)?,
        })
    }

    /// The bytes of the line.
    pub fn bytes(&self) -> &[u8]
        ensures { result.now ≡ self.now }
    {
        &self.bytes
    }
}

/// What has been read of a message.
#[derive(Clone, Drop)]
struct MessageContent {
    originator: Originator,
    kind: Kind,
    mode: TimeMode,
    reference: GivenReference,
    subs: Vec<Sub>,
    free: Vec<FreeLine>,
}

impl Model for MessageContent {
    ghost use Rattle.ssim_text.specs.Message.{MessageValue};

    ghost Value = { MessageValue };

    ghost view = { λ m. record {
      originator = m.originator;
      kind = m.kind;
      mode = m.mode;
      reference = m.reference;
      subs = m.subs.items;
      free = m.free.items;
    } };
}

impl MessageContent {
    /// The canonical text. Memory for `room` bytes is reserved at once.
    fn encode(&self, alloc: Global, room: usize) -> Result<Vec<u8>, AllocError>
        ensures { IfOk result (λ text. text.items ≡ canonical self.now) }
    {
        let mut out = Vec::with_capacity(alloc, room)?;
        push_originator(&mut out, self.originator)?;
        push_kind(&mut out, self.kind)?;
        push_mode(&mut out, self.mode)?;
        self.reference.push(&mut out)?;
        push_subs(&mut out, &self.subs)?;
        push_free(&mut out, &self.free)?;
        Ok(out)
    }
}

/// The part of a message that has been read. It is on the heap, so that passing it on moves only a
/// pointer.
#[derive(Clone, Drop)]
pub(crate) struct Draft {
    content: Box<MessageContent>,
}

impl Model for Draft {
    ghost use Rattle.ssim_text.specs.Message.{MessageValue};

    ghost Value = { MessageValue };

    ghost view = { λ m. m.content.value };
}

impl Draft {
    ghost use Rattle.std.specs.Prelude.{length};

    pub(crate) fn begin(
        alloc: Global,
        originator: Originator,
        kind: Kind,
        mode: TimeMode,
        reference: GivenReference,
    ) -> Result<Draft, AllocError>
        ensures { IfOk result (λ m. m ≡ begun originator kind mode reference) }
    {
        let content = MessageContent {
            originator,
            kind,
            mode,
            reference,
            // Most messages have one sub-message.
            subs: Vec::with_capacity(alloc, 1)?,
            free: Vec::new(alloc),
        };
        Ok(Draft {
            content: Box::new(alloc, content)?,
        })
    }

    pub(crate) fn kind(&self) -> Kind
        ensures { result ≡ self.now.kind }
    {
        self.content.kind
    }

    fn originator(&self) -> Originator
        ensures { result ≡ self.now.originator }
    {
        self.content.originator
    }

    fn mode(&self) -> TimeMode
        ensures { result ≡ self.now.mode }
    {
        self.content.mode
    }

    fn reference(&self) -> &GivenReference
        ensures { result.now ≡ self.now.reference }
    {
        &self.content.reference
    }

    fn subs(&self) -> &[Sub]
        ensures { result.now ≡ self.now.subs }
    {
        &self.content.subs
    }

    fn free(&self) -> &[FreeLine]
        ensures { result.now ≡ self.now.free }
    {
        &self.content.free
    }

    pub(crate) fn sub_count(&self) -> usize
        ensures { result ≡ length self.now.subs }
    {
        self.content.subs.len()
    }

    /// This message with a further sub-message.
    pub(crate) fn with_sub(self, sub: Sub) -> Result<Draft, AllocError>
        ensures { IfOk result (λ m. m ≡ with_sub self sub) }
    {
        let mut message = self;
        message.content.subs.push(sub)?;
        Ok(message)
    }

    /// This message with a further line of free text.
    pub(crate) fn with_free(self, alloc: Global, line: &[u8]) -> Result<Draft, AllocError>
        ensures { IfOk result (λ m. m ≡ with_free self line.now) }
    {
        let mut message = self;
        message.content.free.push(FreeLine::kept(alloc, line)?)?;
        Ok(message)
    }
}

impl Draft {
    fn copy(&self) -> Result<Draft, AllocError>
        ensures { IfOk result (λ copy. copy ≡ self.now) }
    {
        self.clone()
    }

    /// The canonical text. Memory for `room` bytes is reserved at once.
    pub(crate) fn encode(&self, alloc: Global, room: usize) -> Result<Vec<u8>, AllocError>
        ensures { IfOk result (λ text. text.items ≡ canonical self.now) }
    {
        self.content.encode(alloc, room)
    }
}

/// A message of SSIM chapter 4 or 5. It keeps its dates as they were given, and its canonical text.
#[derive(Drop)]
pub struct Message {
    content: Draft,
    /// The canonical text.
    text: Vec<u8>,
}

impl Model for Message {
    ghost use Rattle.std.specs.Prelude.{◌≡◌};
    ghost use Rattle.ssim_text.specs.Message.{MessageValue};
    ghost use Rattle.ssim_text.specs.Canonical.{canonical};
    ghost use Rattle.ssim_text.specs.Spelling.{SpellsMessage};

    ghost Value = { MessageValue };

    ghost view = { λ m. m.content };

    ghost invariant = { λ m. (m.text.items ≡ canonical m.content)
        × SpellsMessage m.content (canonical m.content) };
}

impl Message {
    pub(crate) fn of(content: Draft, text: Vec<u8>) -> Message
        requires text { text.items ≡ canonical content }
        requires spells { SpellsMessage content (canonical content) }
        ensures { result ≡ content }
    {
        Message { content, text }
    }

    /// The message with these sub-messages, which a text can have under this heading, and without
    /// free text. The error says that memory ran out.
    pub fn new(
        alloc: Global,
        originator: Originator,
        kind: Kind,
        mode: TimeMode,
        reference: GivenReference,
        subs: Vec<Sub>,
    ) -> Result<Message, Memory>
        requires { SpellsMessage (message_of originator kind mode reference subs.items)
            (canonical (message_of originator kind mode reference subs.items)) }
        ensures { IfOk result
            (λ message. message ≡ message_of originator kind mode reference subs.items) }
    {
        let content = MessageContent {
            originator,
            kind,
            mode,
            reference,
            subs,
            free: Vec::new(alloc),
        };
        let content = Draft {
            content: Box::new(alloc, content)?,
        };
        let text = content.encode(alloc, 0)?;
        Ok(Message::of(content, text))
    }

    /// The canonical text: one LF after each line, the mode line always, single blanks between
    /// parts, and each value in its one written form. It spells the message, so decoding it gives
    /// an equal one.
    pub fn text(&self) -> &[u8]
        ensures written { result.now ≡ canonical self.now }
        ensures spells { SpellsMessage self.now result.now }
    {
        &self.text
    }

    /// Whether two messages are equal, however their texts spelled them.
    pub fn same(&self, other: &Message) -> bool
        ensures { IsTrue result ↔ (self.now ≡ other.now) }
    {
        self.text.as_slice() == other.text.as_slice()
    }

    /// An equal message. The error says that memory ran out.
    pub fn copy(&self, alloc: Global) -> Result<Message, Memory>
        ensures { IfOk result (λ copy. copy ≡ self.now) }
    {
        let content = self.content.copy()?;
        let text = Vec::from_slice(alloc, &self.text)?;
        Ok(Message::of(content, text))
    }

    /// The originator, seven blanks if the text has none.
    pub fn originator(&self) -> Originator
        ensures { result ≡ self.now.originator }
    {
        self.content.originator()
    }

    /// Whether it is an SSM or an ASM.
    pub fn kind(&self) -> Kind
        ensures { result ≡ self.now.kind }
    {
        self.content.kind()
    }

    /// The time mode of its hours.
    pub fn mode(&self) -> TimeMode
        ensures { result ≡ self.now.mode }
    {
        self.content.mode()
    }

    /// The reference as it was given: its group has five digits at most, its serial three, and the
    /// creator's own reference 1 to 35 bytes from 32 to 126.
    pub fn reference(&self) -> &GivenReference
        ensures value { result.now ≡ self.now.reference }
        ensures bounded { IsReferenceBounded self.now.reference }
    {
        self.content.reference()
    }

    /// The sub-messages, in their order: 1 to 250, each with the dates of the message's kind, 1 to
    /// 20 leg lines if its action has any, and values in their bounds.
    pub fn subs(&self) -> &[Sub]
        ensures value { result.now ≡ self.now.subs }
        ensures shape { IsShape self.now }
        ensures bounded { AreSubsBounded self.now.subs }
    {
        self.content.subs()
    }

    /// The lines of free text: bytes from 32 to 126.
    pub fn free(&self) -> &[FreeLine]
        ensures value { result.now ≡ self.now.free }
        ensures bounded { AreFreeLinesBounded self.now.free }
    {
        self.content.free()
    }
}

/// A copy of the canonical text of a message.
pub fn encode(alloc: Global, message: &Message) -> Result<Vec<u8>, Memory>
    ensures written { IfOk result (λ text. text.items ≡ canonical message.now) }
    ensures spells { IfOk result (λ text. SpellsMessage message.now text.items) }
{
    Ok(Vec::from_slice(alloc, &message.text)?)
}
