// Letters in packets of two words: a word with kind, task, register, function and destinations, and the operand or value.
ghost use Rattle.std.specs.Prelude.{◌≡◌, ◌||◌, if◌then◌else◌, nat_eq, nat_lt};
ghost use Rattle.names.specs.Letters.{body_of, kind_of, function_of, value_of, function_fits, kind_in, task_in, register_in, function_in, to_in, word_of, letter_of, packet_of};

use crate::{Body, Letter, Message, Packet, Register, Task, known_function, picked};

// The body that a packet's kind, function and value give.
// Kept: kinds in memory are numbers of three bits, which C lends (RULES 11.13).
#[tactic(auto, using(lists::specs::Tests::cases), unfolding(crate::specs::Letters::body_of))]
pub fn body_of(kind: u32, function: u32, value: u32) -> Body
    ensures { result ≡ body_of kind function value }
{
    match kind {
        1 => Body::ReadDo,
        2 => Body::UpdateDo(function, value),
        3 => Body::ReadReply(value),
        _ => Body::UpdateReply(value),
    }
}

impl Body {
    // Its kind in memory, 1 to 4 (RULES 11.13).
    #[tactic(auto, unfolding(crate::specs::Letters::kind_of))]
    pub fn kind(self) -> u32
        ensures { result ≡ kind_of self }
    {
        match self {
            Body::ReadDo => 1,
            Body::UpdateDo(_, _) => 2,
            Body::ReadReply(_) => 3,
            Body::UpdateReply(_) => 4,
        }
    }

    // The function that it names, else 0.
    #[tactic(auto, unfolding(crate::specs::Letters::function_of))]
    pub fn function(self) -> u32
        ensures { result ≡ function_of self }
    {
        match self {
            Body::UpdateDo(function, _) => function,
            _ => 0,
        }
    }

    // The operand or value that it carries, else 0.
    #[tactic(auto, unfolding(crate::specs::Letters::value_of))]
    pub fn value(self) -> u32
        ensures { result ≡ value_of self }
    {
        match self {
            Body::ReadDo => 0,
            Body::UpdateDo(_, v) | Body::ReadReply(v) | Body::UpdateReply(v) => v,
        }
    }
}

// Whether a function is known where an update, kind 2, names it.
#[tactic(auto, unfolding(crate::specs::Letters::function_fits))]
pub fn function_fits(kind: u32, function: u32) -> bool
    ensures { result ≡ function_fits kind function }
{
    (kind != 2) | known_function(function)
}

// The fields of a packet's first word.
#[tactic(auto, unfolding(crate::specs::Letters::kind_in))]
pub fn kind_in(word: u32) -> u32
    ensures { result ≡ kind_in word }
{
    word % 8
}

#[tactic(auto, unfolding(crate::specs::Letters::task_in))]
pub fn task_in(word: u32) -> Task
    ensures { result ≡ record { 0 = task_in word } }
{
    Task(word / 8 % 16)
}

#[tactic(auto, unfolding(crate::specs::Letters::register_in))]
pub fn register_in(word: u32) -> Register
    ensures { result ≡ record { 0 = register_in word } }
{
    Register(word / 128 % 32)
}

#[tactic(auto, unfolding(crate::specs::Letters::function_in))]
pub fn function_in(word: u32) -> u32
    ensures { result ≡ function_in word }
{
    word / 4096 % 8
}

#[tactic(auto, unfolding(crate::specs::Letters::to_in))]
pub fn to_in(word: u32) -> u32
    ensures { result ≡ to_in word }
{
    word / 32768
}

// The letter that a packet carries.
impl From<Packet> for Letter {
    ghost from_gives = { λ packet letter. letter ≡ letter_of packet };

    #[tactic(auto, unfolding(crate::specs::Letters::letter_of))]
    fn from(packet: Packet) -> Letter {
        let word = packet.word;
        Letter {
            message: Message {
                task: task_in(word),
                register: register_in(word),
                body: body_of(kind_in(word), function_in(word), packet.value),
            },
            to: to_in(word),
        }
    }
}

// The first word of a packet with these fields; a field past its room is cut to it.
#[tactic(auto, unfolding(crate::specs::Letters::word_of))]
fn word_of(kind: u32, task: Task, register: Register, function: u32, to: u32) -> u32
    ensures { result ≡ word_of kind task.0 register.0 function to }
{
    kind % 8 + task.0 % 16 * 8 + register.0 % 32 * 128 + function % 8 * 4096 + to % 131072 * 32768
}

// The packet that carries a letter.
impl From<Letter> for Packet {
    ghost from_gives = { λ letter packet. packet ≡ packet_of letter };

    #[tactic(auto, unfolding(crate::specs::Letters::packet_of))]
    fn from(letter: Letter) -> Packet {
        let message = letter.message;
        let body = message.body;
        Packet {
            word: word_of(
                body.kind(),
                message.task,
                message.register,
                body.function(),
                letter.to,
            ),
            value: body.value(),
        }
    }
}

// The kind of the body that a packet of this kind carries: 0 and above 4 are read as 4.
#[tactic(auto, using(lists::specs::Tests::cases))]
fn kind_read(kind: u32) -> u32
    ensures { result ≡ (if nat_eq kind 0 || nat_lt 4 kind then 4 else kind) }
{
    if matches!(kind, 1..=3) { kind } else { 4 }
}

// The packet of the letter that a packet carries: what its kind does not use is 0.
pub fn repacked(packet: Packet) -> Packet
    ensures { result ≡ packet_of (letter_of packet) }
{
    let word = packet.word;
    let kind = kind_in(word);
    let update = kind == 2;
    Packet {
        word: word_of(
            kind_read(kind),
            task_in(word),
            register_in(word),
            picked(update, function_in(word)),
            to_in(word),
        ),
        value: picked(kind != 1, packet.value),
    }
}
