//! The parts of a frame that the picture shows.

use std::alloc::Global;
use terms::{NoMemory, Party};
use wire::{Body, Message, WireFault, decode};

/// The kind of a frame, which has its colour.
#[derive(Clone, Copy, Debug, PartialEq, Eq, Drop)]
pub(crate) enum MessageKind {
    Request,
    PrePrepare,
    Prepare,
    Commit,
    Reply,
    Checkpoint,
    ViewChange,
    NewView,
    Fetch,
    Meta,
    Page,
    NoFrame,
}

pub(crate) const KINDS: [MessageKind; 12] = [
    MessageKind::Request,
    MessageKind::PrePrepare,
    MessageKind::Prepare,
    MessageKind::Commit,
    MessageKind::Reply,
    MessageKind::Checkpoint,
    MessageKind::ViewChange,
    MessageKind::NewView,
    MessageKind::Fetch,
    MessageKind::Meta,
    MessageKind::Page,
    MessageKind::NoFrame,
];

impl MessageKind {
    pub(crate) fn name(self) -> &'static str {
        match self {
            MessageKind::Request => "request",
            MessageKind::PrePrepare => "pre-prepare",
            MessageKind::Prepare => "prepare",
            MessageKind::Commit => "commit",
            MessageKind::Reply => "reply",
            MessageKind::Checkpoint => "checkpoint",
            MessageKind::ViewChange => "view-change",
            MessageKind::NewView => "new-view",
            MessageKind::Fetch => "fetch",
            MessageKind::Meta => "meta",
            MessageKind::Page => "page",
            MessageKind::NoFrame => "no-frame",
        }
    }

    // Muted colours that differ from each other on white.
    pub(crate) fn colour(self) -> &'static str {
        match self {
            MessageKind::Request => "#4a74b0",
            MessageKind::PrePrepare => "#c9762b",
            MessageKind::Prepare => "#b59b2c",
            MessageKind::Commit => "#5d9149",
            MessageKind::Reply => "#8160ab",
            MessageKind::Checkpoint => "#7d8491",
            MessageKind::ViewChange => "#c2453f",
            MessageKind::NewView => "#8c2340",
            MessageKind::Fetch => "#2f9e94",
            MessageKind::Meta => "#2d6e85",
            MessageKind::Page => "#6cacc9",
            MessageKind::NoFrame => "#3d3d3d",
        }
    }
}

/// The parts of a frame that the picture shows.
#[derive(Clone, Copy, Drop)]
pub(crate) struct Shown {
    pub(crate) kind: MessageKind,
    pub(crate) sender: Option<Party>,
    /// The view of a view change or a new view.
    pub(crate) view: u64,
}

pub(crate) fn read_shown(alloc: Global, bytes: &[u8]) -> Result<Shown, NoMemory> {
    match decode(alloc, bytes) {
        Ok(frame) => Ok(shown_of(&frame.body)),
        Err(fault) => match fault {
            WireFault::NoMemory => Err(NoMemory),
            _ => Ok(Shown {
                kind: MessageKind::NoFrame,
                sender: None,
                view: 0,
            }),
        },
    }
}

fn shown_of(body: &Body) -> Shown {
    let (kind, view) = match &body.message {
        Message::Request(_) => (MessageKind::Request, 0),
        Message::PrePrepare(_) => (MessageKind::PrePrepare, 0),
        Message::Prepare(_) => (MessageKind::Prepare, 0),
        Message::Commit(_) => (MessageKind::Commit, 0),
        Message::Reply(_) => (MessageKind::Reply, 0),
        Message::Checkpoint(_) => (MessageKind::Checkpoint, 0),
        Message::ViewChange(change) => (MessageKind::ViewChange, change.view.0),
        Message::NewView(new) => (MessageKind::NewView, new.view.0),
        Message::Fetch(_) => (MessageKind::Fetch, 0),
        Message::Meta(_) => (MessageKind::Meta, 0),
        Message::Page(_) => (MessageKind::Page, 0),
    };
    Shown {
        kind,
        sender: Some(body.sender),
        view,
    }
}
