// A step in words (RULES 3.3).
use super::words::{Words, hexadecimal};

// The functions of an update, by their numbers.
#[derive(Clone, Copy)]
pub(crate) enum Function {
    Set = 1,
    AddToTop = 2,
    Larger = 3,
    Or = 4,
    AddRound = 5,
}

impl Function {
    fn read(words: &mut Words) -> Option<Function> {
        match words.next()? {
            b"set" => Some(Function::Set),
            b"add" => Function::addition(words),
            b"larger" => Some(Function::Larger),
            b"or" => Some(Function::Or),
            _ => None,
        }
    }

    // What an addition does at the top.
    fn addition(words: &mut Words) -> Option<Function> {
        match words.next()? {
            b"stays" => {
                words.expect("at the top")?;
                Some(Function::AddToTop)
            }
            b"comes" => {
                words.expect("round")?;
                Some(Function::AddRound)
            }
            _ => None,
        }
    }
}

#[derive(Clone, Copy)]
pub(crate) enum Step {
    RequestRead {
        task: u8,
        register: u8,
    },
    RequestUpdate {
        task: u8,
        register: u8,
        function: Function,
        operand: u32,
    },
    Perform {
        task: u8,
    },
    SendRead {
        task: u8,
        card: u8,
    },
    SendUpdate {
        task: u8,
    },
    Dispatch {
        card: u8,
    },
    TakeBroadcast {
        card: u8,
    },
    TakeSingle {
        task: u8,
    },
    Deliver {
        card: u8,
    },
    Report {
        task: u8,
    },
    // As it stands in the file.
    Bytes {
        code: u8,
        argument: [u8; 8],
    },
}

impl Step {
    // The step that the next words say.
    pub(crate) fn read(words: &mut Words) -> Option<Step> {
        match words.next()? {
            b"request" => Step::request(words),
            b"perform" => Some(Step::Perform {
                task: words.byte_after("task")?,
            }),
            b"send" => Step::send(words),
            b"dispatch" => Some(Step::Dispatch {
                card: words.byte_after("card")?,
            }),
            b"take" => Step::take(words),
            b"deliver" => Some(Step::Deliver {
                card: words.byte_after("card")?,
            }),
            b"report" => Some(Step::Report {
                task: words.byte_after("task")?,
            }),
            b"bytes" => Step::bytes(words),
            _ => None,
        }
    }

    fn request(words: &mut Words) -> Option<Step> {
        match words.next()? {
            b"read" => Some(Step::RequestRead {
                task: words.byte_after("task")?,
                register: words.byte_after("register")?,
            }),
            b"update" => Some(Step::RequestUpdate {
                task: words.byte_after("task")?,
                register: words.byte_after("register")?,
                function: Function::read(words)?,
                operand: words.number()?,
            }),
            _ => None,
        }
    }

    fn send(words: &mut Words) -> Option<Step> {
        match words.next()? {
            b"read" => Some(Step::SendRead {
                task: words.byte_after("task")?,
                card: words.byte_after("to card")?,
            }),
            b"update" => Some(Step::SendUpdate {
                task: words.byte_after("task")?,
            }),
            _ => None,
        }
    }

    fn take(words: &mut Words) -> Option<Step> {
        match words.next()? {
            b"broadcast" => Some(Step::TakeBroadcast {
                card: words.byte_after("card")?,
            }),
            b"single" => Some(Step::TakeSingle {
                task: words.byte_after("task")?,
            }),
            _ => None,
        }
    }

    fn bytes(words: &mut Words) -> Option<Step> {
        let code = hexadecimal(words.next()?)?;
        let mut argument = [0; 8];
        for byte in &mut argument {
            *byte = hexadecimal(words.next()?)?;
        }
        Some(Step::Bytes { code, argument })
    }

    // Its code and its argument in the file.
    pub(crate) fn in_file(self) -> (u8, [u8; 8]) {
        match self {
            Step::RequestRead { task, register } => (1, [task, register, 0, 0, 0, 0, 0, 0]),
            Step::RequestUpdate {
                task,
                register,
                function,
                operand,
            } => {
                let [a, b, c, d] = operand.to_le_bytes();
                (2, [task, register, function as u8, 0, a, b, c, d])
            }
            Step::Perform { task } => (3, [task, 0, 0, 0, 0, 0, 0, 0]),
            Step::SendRead { task, card } => (4, [task, card, 0, 0, 0, 0, 0, 0]),
            Step::SendUpdate { task } => (5, [task, 0, 0, 0, 0, 0, 0, 0]),
            Step::Dispatch { card } => (6, [card, 0, 0, 0, 0, 0, 0, 0]),
            Step::TakeBroadcast { card } => (7, [card, 0, 0, 0, 0, 0, 0, 0]),
            Step::TakeSingle { task } => (8, [task, 0, 0, 0, 0, 0, 0, 0]),
            Step::Deliver { card } => (9, [card, 0, 0, 0, 0, 0, 0, 0]),
            Step::Report { task } => (10, [task, 0, 0, 0, 0, 0, 0, 0]),
            Step::Bytes { code, argument } => (code, argument),
        }
    }
}
