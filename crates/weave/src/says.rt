// Who speaks to the port, and what is said: all of a message but its times and its correction.
use record::Outcome;
use wire::MessageType::{DelayResp, FollowUp, PDelayReq, PDelayResp, PDelayRespFollowUp, Sync};
use wire::{Identity, MessageType};

pub(crate) const DOMAIN: u8 = 5;

// The sdo id's two parts.
pub(crate) const MAJOR: u8 = 1;

pub(crate) const MINOR: u8 = 0x23;

// Who speaks: we, our master, who answers our peer requests, and our master's clock at another port.
pub(crate) const US: Identity = Identity {
    clock: 0x001b_19ff_fe00_0001,
    port: 1,
};

pub(crate) const MASTER: Identity = Identity {
    clock: 0x001b_19ff_fe00_0002,
    port: 3,
};

const PEER: Identity = Identity {
    clock: 0x001b_19ff_fe00_0003,
    port: 1,
};

pub(crate) const STRANGER: Identity = Identity {
    clock: 0x001b_19ff_fe00_0002,
    port: 1,
};

// The messages. First the parts of our own exchanges, then foreign traffic that the port takes: a stranger's, and answers of our
// master's and our peer's to a stranger. Four the port refuses: a Sync of our master's in one byte, one that is cut short, one of
// another domain, and an Announce.
#[derive(Clone, Copy)]
pub enum Message {
    Sync,
    SyncTwoStep,
    FollowUp,
    DelayResp,
    PDelayResp,
    PDelayRespTwoStep,
    PDelayRespFollowUp,
    StrangersSyncTwoStep,
    StrangersSync,
    StrangersFollowUp,
    StrangersDelayResp,
    StrangersPDelayReq,
    DelayRespToStranger,
    PDelayRespTwoStepToStranger,
    PDelayRespToStranger,
    PDelayRespFollowUpToStranger,
    SyncOneByte,
    SyncCut,
    SyncOfOtherDomain,
    Announce,
}

// A message's type: one of document 01's table, or an Announce, which is the host's.
#[derive(Clone, Copy)]
pub enum Type {
    Table(MessageType),
    Announce,
}

impl Type {
    // Of the messages that come by the event entry, types 0 to 3.
    pub(crate) fn is_event(self) -> bool {
        matches!(
            self,
            Type::Table(
                MessageType::Sync
                    | MessageType::DelayReq
                    | MessageType::PDelayReq
                    | MessageType::PDelayResp
            )
        )
    }
}

// A message, but for its times and its correction. Where cut says so, only so many bytes of it are lent to the port.
#[derive(Clone, Copy)]
pub struct Said {
    pub message_type: Type,
    pub flags: u16,
    pub domain: u8,
    pub id: u16,
    pub source: Identity,
    pub requester: Identity,
    pub cut: Option<usize>,
}

impl Said {
    // A message of one step in our domain; one that answers a request answers ours.
    fn new(message_type: MessageType, source: Identity, id: u16) -> Said {
        Said {
            message_type: Type::Table(message_type),
            flags: 0,
            domain: DOMAIN,
            id,
            source,
            requester: US,
            cut: None,
        }
    }

    fn in_two_steps(mut self) -> Said {
        self.flags = 0x0200;
        self
    }

    fn to_stranger(mut self) -> Said {
        self.requester = STRANGER;
        self
    }

    fn of_other_domain(mut self) -> Said {
        self.domain = DOMAIN + 1;
        self
    }

    fn as_announce(mut self) -> Said {
        self.message_type = Type::Announce;
        self
    }

    fn cut_to(mut self, bytes: usize) -> Said {
        self.cut = Some(bytes);
        self
    }
}

impl Message {
    pub(crate) fn said(self, id: u16) -> Said {
        match self {
            Message::Sync => Said::new(Sync, MASTER, id),
            Message::SyncTwoStep => Said::new(Sync, MASTER, id).in_two_steps(),
            Message::FollowUp => Said::new(FollowUp, MASTER, id),
            Message::DelayResp => Said::new(DelayResp, MASTER, id),
            Message::PDelayResp => Said::new(PDelayResp, PEER, id),
            Message::PDelayRespTwoStep => Said::new(PDelayResp, PEER, id).in_two_steps(),
            Message::PDelayRespFollowUp => Said::new(PDelayRespFollowUp, PEER, id),
            Message::StrangersSyncTwoStep => Said::new(Sync, STRANGER, id).in_two_steps(),
            Message::StrangersSync => Said::new(Sync, STRANGER, id),
            Message::StrangersFollowUp => Said::new(FollowUp, STRANGER, id),
            Message::StrangersDelayResp => Said::new(DelayResp, STRANGER, id),
            Message::StrangersPDelayReq => Said::new(PDelayReq, STRANGER, id),
            Message::DelayRespToStranger => Said::new(DelayResp, MASTER, id).to_stranger(),
            Message::PDelayRespTwoStepToStranger => {
                Said::new(PDelayResp, PEER, id).in_two_steps().to_stranger()
            }
            Message::PDelayRespToStranger => Said::new(PDelayResp, PEER, id).to_stranger(),
            Message::PDelayRespFollowUpToStranger => Said::new(
                PDelayRespFollowUp,
                PEER,
                id,
            ).to_stranger(),
            Message::SyncOneByte => Said::new(Sync, MASTER, id).cut_to(1),
            Message::SyncCut => Said::new(Sync, MASTER, id).cut_to(43),
            Message::SyncOfOtherDomain => Said::new(Sync, MASTER, id).of_other_domain(),
            Message::Announce => Said::new(Sync, MASTER, id).as_announce(),
        }
    }

    // How the port is to answer.
    pub(crate) fn answer(self) -> Outcome {
        match self {
            Message::SyncOneByte => Outcome::Version,
            Message::SyncCut => Outcome::Malformed,
            Message::SyncOfOtherDomain => Outcome::Foreign,
            Message::Announce => Outcome::Host,
            _ => Outcome::Taken,
        }
    }
}
