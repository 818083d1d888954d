//! What holds of every stream of messages. The functions do nothing: their contracts are the laws.
ghost use Rattle.std.specs.Prelude.{◌≡◌, ℕ, List, ◌++◌, length};
ghost use Rattle.perc_tunnel.specs.Message.{HasLengths, IsMessage, TunnelMessage, message_length, spelling};
ghost use Rattle.perc_tunnel.specs.Stream.{IsFaultyAt, IsPart, IsStream};
ghost use Rattle.perc_tunnel.specs.Decoding.{AnswersAreExact, Call, Decoding, EachAnswerIsExact, FeedsAreExact, IsExact, Leads, fresh};

/// No message's spelling begins another's: octets begin with one message at most, and then aren't a part of one.
pub fn one_message()
    ensures whole { (m n : TunnelMessage) (a b : List ℕ) → IsMessage m → IsMessage n → spelling m ++ a ≡ spelling n ++ b → (m ≡ n) × (a ≡ b) }
    ensures part { (m : TunnelMessage) (a : List ℕ) → IsMessage m → IsPart (spelling m ++ a) → ⊥ }
{}

/// A stream has one reading: it is the same messages with the same rest, or it goes wrong at one offset, and not both.
pub fn one_reading()
    ensures stream { (ms ns : List TunnelMessage) (r s octets : List ℕ) → IsStream ms r octets → IsStream ns s octets → (ms ≡ ns) × (r ≡ s) }
    ensures fault { (p q : ℕ) (ms ns : List TunnelMessage) (r s octets : List ℕ) → IsFaultyAt p ms r octets → IsFaultyAt q ns s octets → (p ≡ q) × (ms ≡ ns) }
    ensures one { (q : ℕ) (ms ns : List TunnelMessage) (r s octets : List ℕ) → IsStream ms r octets → IsFaultyAt q ns s octets → ⊥ }
{}

/// Whatever pieces a new decoder is fed, and whenever it is asked for the next message: the octets that it took are the
/// spellings of the messages that it gave, in order, followed by what it holds; and a fault is where the stream goes wrong.
pub fn any_pieces()
    ensures { (calls : List Call) (octets : List ℕ) (messages : List TunnelMessage) (d : Decoding) → Leads fresh calls octets messages d → IsExact octets messages d }
{}

/// One call of a decoder whose messages and held octets are the stream so far: after it they are still, and the next answer
/// is the one that the stream demands.
pub fn one_call()
    ensures feed { FeedsAreExact }
    ensures next { AnswersAreExact }
{}

/// Whatever pieces a new decoder is fed, and whenever it is asked: the next answer is None exactly where the octets that it
/// took are the messages that it gave and a proper prefix of one more, a message exactly where it stands behind them, and a
/// fault at an offset exactly where the stream goes wrong there.
pub fn next_answer()
    ensures { EachAnswerIsExact }
{}

/// A message is as long as its spelling, and has the lengths that a spelling wants.
pub fn lengths()
    ensures spelled { (m : TunnelMessage) → IsMessage m → length (spelling m) ≡ message_length m }
    ensures possible { (m : TunnelMessage) → IsMessage m → HasLengths m }
{}
