//! Lists of words, and what each means.

use command_words::{Command, read_words};
use std::alloc::{AllocError, Global};
use std::test::Fail;
use verify_question::{Question, model_word, notion_word};

/// In each line words, cut at single spaces, so that an empty word stands between two; and what they mean, or `-`.
const TABLE: &str = r#"verify probing 1 value f => verify probing 1 value f 1 None None
verify ni 2 glitch f => verify ni 2 glitch f 1 None None
verify sni 8 value f => verify sni 8 value f 1 None None
verify probing 01 value f => verify probing 1 value f 1 None None
verify probing 00000000000000000008 value f => verify probing 8 value f 1 None None
verify probing 000000000000000000008 value f => -
verify probing 0 value f => -
verify probing 9 value f => -
verify probing +1 value f => -
verify probing -1 value f => -
verify probing 1x value f => -
verify probing  value f => -
verify Probing 1 value f => -
verify pini 1 value f => -
verify probing 1 values f => -
verify probing 1 value  => -
verify probing 1 value - => -
verify probing 1 value -f => -
verify probing 1 value => -
verify probing 1 value f g => -
verify probing 1 value f=g => verify probing 1 value f=g 1 None None
verify => -
Verify probing 1 value f => -
 verify probing 1 value f => -
probing 1 value f => -
 => -
help => -
--help => -
--version => -
--workers 2 verify probing 1 value f => -
verify --help => -
verify probing 1 value f --help => -
verify probing 1 value f -- => -
verify -- probing 1 value f => -
verify probing 1 value f --workers=2 => verify probing 1 value f 2 None None
verify probing 1 value f --workers 2 => verify probing 1 value f 2 None None
verify --workers 2 probing 1 value f => verify probing 1 value f 2 None None
verify probing --workers 2 1 value f => verify probing 1 value f 2 None None
verify probing 1 value --workers=02 f => verify probing 1 value f 2 None None
verify probing 1 value f --workers 64 => verify probing 1 value f 64 None None
verify probing 1 value f --workers 65 => -
verify probing 1 value f --workers 0 => -
verify probing 1 value f --workers 2 --workers 2 => -
verify probing 1 value f --workers=2 --workers 3 => -
verify probing 1 value f --workers => -
verify probing 1 value f --workers  => -
verify probing 1 value f --workers= => -
verify probing 1 value f --workers==2 => -
verify probing 1 value f --workers=2=3 => -
verify probing 1 value f --workers=-2 => -
verify probing 1 value f --workers -2 => -
verify probing 1 value f --workers --schedule=5 => -
verify probing 1 value f --workers --workers => -
verify probing 1 value f --worker 2 => -
verify probing 1 value f --workers2 => -
verify probing 1 value f -workers 2 => -
verify probing 1 value f --Workers 2 => -
verify probing 1 value f --workers two => -
verify --workers probing 1 value f => -
verify probing 1 value f --workers 00000000000000000002 => verify probing 1 value f 2 None None
verify probing 1 value f --workers 000000000000000000002 => -
verify probing 1 value f --certificate c => verify probing 1 value f 1 Some("c") None
verify probing 1 value f --certificate=c => verify probing 1 value f 1 Some("c") None
verify probing 1 value f --certificate f => -
verify probing 1 value f --certificate=f => -
verify probing 1 value f --certificate ./f => verify probing 1 value f 1 Some("./f") None
verify probing 1 value f --certificate==c => verify probing 1 value f 1 Some("=c") None
verify probing 1 value f --certificate= => -
verify probing 1 value f --certificate -c => -
verify probing 1 value f --certificate=-c => -
verify probing 1 value f --certificate --workers => -
verify probing 1 value f --certificate c --certificate d => -
verify probing 1 value f --certificate c d => -
verify probing 1 value --certificate f => -
verify probing 1 value f --schedule 0 => verify probing 1 value f 1 None Some(0)
verify probing 1 value f --schedule=00000000000000000005 => verify probing 1 value f 1 None Some(5)
verify probing 1 value f --schedule=000000000000000000005 => -
verify probing 1 value f --schedule 18446744073709551615 => verify probing 1 value f 1 None Some(18446744073709551615)
verify probing 1 value f --schedule 18446744073709551616 => -
verify probing 1 value f --schedule 99999999999999999999 => -
verify probing 1 value f --schedule -1 => -
verify --schedule=5 probing 1 value f --schedule=5 => -
verify probing 1 value f --schedule 5 --workers 2 --certificate c => verify probing 1 value f 2 Some("c") Some(5)
verify --schedule 5 probing --workers=2 1 value --certificate=c f => verify probing 1 value f 2 Some("c") Some(5)
check probing 1 value f c => check probing 1 value f c
check sni 08 glitch f ./f => check sni 8 glitch f ./f
check probing 1 value f f => -
check probing 1 value f => -
check probing 1 value f c d => -
check probing 1 value f c --workers 2 => -
check --workers=2 probing 1 value f c => -
check probing 1 value f --certificate c => -
check probing 9 value f c => -
check probing 1 value -f c => -
check probing 1 value f -c => -
check probing 1 value f  => -
generate 0 2 => generate 0 2
generate 18446744073709551615 16 => generate 18446744073709551615 16
generate 18446744073709551616 2 => -
generate 007 03 => generate 7 3
generate 5 1 => -
generate 5 17 => -
generate 5 => -
generate 5 2 3 => -
generate -5 2 => -
generate 5 --workers=2 => -
generate 5 2 --workers 2 => -
trial 4294967296 2 => trial 4294967296 2
trial 1 17 => -
trial => -
"#;

fn words_of(alloc: Global, text: &str) -> Result<Vec<String>, AllocError> {
    let mut words = Vec::new(alloc);
    for word in text.split(' ') {
        words.push(String::from_str(alloc, word)?)?;
    }
    Ok(words)
}

fn question_text(alloc: Global, asked: Question) -> Result<String, AllocError> {
    let notion = notion_word(asked.notion);
    let model = model_word(asked.model);
    let order = asked.order;
    format!(in alloc; "{notion} {order} {model}")
}

/// A command in words.
fn text_of(alloc: Global, command: Command<'_>) -> Result<String, AllocError> {
    match command {
        Command::Verify(asked) => {
            let question = question_text(alloc, asked.question)?;
            format!(in alloc;
                "verify {question} {} {} {:?} {:?}",
                asked.netlist, asked.workers, asked.certificate, asked.schedule
            )
        }
        Command::Check(asked) => {
            let question = question_text(alloc, asked.question)?;
            format!(in alloc; "check {question} {} {}", asked.netlist, asked.certificate)
        }
        Command::Generate(gadget) => {
            format!(in alloc; "generate {} {}", gadget.seed, gadget.shares)
        }
        Command::Trial(gadget) => format!(in alloc; "trial {} {}", gadget.seed, gadget.shares),
    }
}

fn meaning(alloc: Global, words: &[String]) -> Result<String, AllocError> {
    match read_words(words) {
        Some(command) => text_of(alloc, command),
        None => String::from_str(alloc, "-"),
    }
}

#[test]
fn words_mean_what_they_say(rt: HostRuntime) -> Result<(), Fail> {
    let alloc = rt.alloc();
    assert!(rt; read_words(&[]).is_none());
    for line in TABLE.lines() {
        let (text, due) = line.split_once(" => ").ok_or("a line without a meaning")?;
        let words = words_of(alloc, text)?;
        let read = meaning(alloc, words.as_slice())?;
        assert_eq!(rt; read.as_str(), due, "{line}");
    }
    Ok(())
}
