use cable_base::Copied;
use cable_json::*;
use std::alloc::{AllocError, Global};
use std::test::Fail;

/// A command in words.
fn told(alloc: Global, command: &Command) -> Result<String, AllocError> {
    match command {
        Command::Subscribe { identifier } => {
            format!(in alloc; "subscribe {}", identifier.as_str())
        }
        Command::Unsubscribe { identifier } => {
            format!(in alloc; "unsubscribe {}", identifier.as_str())
        }
        Command::Message {
            identifier,
            payload,
        } => format!(in alloc; "message {} {}", identifier.as_str(), payload.as_str()),
    }
}

fn read(alloc: Global, text: &str) -> Result<Command, &'static str> {
    read_command(alloc, text).ok().ok_or("no command")
}

/// A subscribe whose member `more` is that many arrays, each in the one before.
fn with_arrays(alloc: Global, count: usize) -> Result<String, AllocError> {
    let mut text = String::from_str(
        alloc,
        "{\"command\":\"subscribe\",\"identifier\":\"x\",\"more\":",
    )?;
    for _ in 0..count {
        text.push('[')?;
    }
    for _ in 0..count {
        text.push(']')?;
    }
    text.push('}')?;
    Ok(text)
}

#[test]
fn first_broken_rule_is_answered(rt: HostRuntime) -> Result<(), Fail> {
    for (text, fault) in [
        ("", CommandFault::BadJson),
        ("[]", CommandFault::BadJson),
        (
            "{\"command\":\"subscribe\",\"identifier\":\"x\"",
            CommandFault::BadJson,
        ),
        (
            "{\"command\":\"subscribe\",\"identifier\":\"\\ud800\"}",
            CommandFault::BadJson,
        ),
        (
            "{\"command\":\"subscribe\",\"identifier\":\"x\",\"more\":1e999}",
            CommandFault::BadJson,
        ),
        (
            "\u{feff}{\"command\":\"subscribe\",\"identifier\":\"x\"}",
            CommandFault::BadJson,
        ),
        ("{}", CommandFault::UnknownCommand),
        ("{\"command\":\"Subscribe\"}", CommandFault::UnknownCommand),
        (
            "{\"command\":[\"subscribe\"],\"identifier\":\"x\"}",
            CommandFault::UnknownCommand,
        ),
        (
            "{\"command\":\"subscribe\",\"command\":\"fly\",\"identifier\":\"x\"}",
            CommandFault::UnknownCommand,
        ),
        ("{\"command\":\"subscribe\"}", CommandFault::NoIdentifier),
        (
            "{\"command\":\"unsubscribe\",\"identifier\":7}",
            CommandFault::NoIdentifier,
        ),
        (
            "{\"command\":\"message\",\"data\":\"{\"}",
            CommandFault::NoIdentifier,
        ),
        (
            "{\"command\":\"message\",\"identifier\":\"x\"}",
            CommandFault::BadData,
        ),
        (
            "{\"command\":\"message\",\"identifier\":\"x\",\"data\":{}}",
            CommandFault::BadData,
        ),
        (
            "{\"command\":\"message\",\"identifier\":\"x\",\"data\":\"{\"}",
            CommandFault::BadData,
        ),
    ] {
        assert_eq!(rt; read_command(rt.alloc(), text), Err(fault), "at {text}");
    }
    Ok(())
}

#[test]
fn commands_are_read(rt: HostRuntime) -> Result<(), Fail> {
    let alloc = rt.alloc();
    for (text, wanted) in [
        (
            "{\"command\":\"subscribe\",\"identifier\":\"x\"}",
            "subscribe x",
        ),
        (
            "{\"command\":\"unsubscribe\",\"identifier\":\"x\",\"data\":7}",
            "unsubscribe x",
        ),
        (
            "{\"command\":\"message\",\"identifier\":\"x\",\"data\":\"[ 1 ]\"}",
            "message x [1]",
        ),
        (
            "{\"command\":\"message\",\"identifier\":\"\",\"data\":\"{ \\\"a b\\\" : 1.50 }\"}",
            "message  {\"a b\":1.50}",
        ),
        // Of two equal keys the last one counts, and keys are equal by their characters.
        (
            "{\"command\":\"fly\",\"command\":\"subscribe\",\"identifier\":\"x\"}",
            "subscribe x",
        ),
        (
            "{\"command\":\"subscribe\",\"identifier\":\"x\",\"identi\\u0066ier\":\"y\"}",
            "subscribe y",
        ),
    ] {
        let command = read(alloc, text)?;
        assert_eq!(rt; told(alloc, &command)?.as_str(), wanted, "at {text}");
        assert_eq!(rt; command.copied(alloc)?, command, "the copy at {text}");
    }
    Ok(())
}

#[test]
fn at_most_127_arrays_and_objects_nest(rt: HostRuntime) -> Result<(), Fail> {
    let alloc = rt.alloc();
    // The object itself is one of them.
    for (arrays, fault) in [(126, None), (127, Some(CommandFault::BadJson))] {
        let text = with_arrays(alloc, arrays)?;
        assert_eq!(rt;
            read_command(alloc, text.as_str()).err(),
            fault,
            "at {arrays} arrays"
        );
    }
    Ok(())
}

#[test]
fn texts_are_written(rt: HostRuntime) -> Result<(), Fail> {
    let alloc = rt.alloc();
    assert_eq!(rt; welcome(alloc)?.as_str(), "{\"type\":\"welcome\"}");
    assert_eq!(rt;
        ping(alloc, 0)?.as_str(),
        "{\"type\":\"ping\",\"message\":0}"
    );
    assert_eq!(rt;
        confirm(alloc, "a\"b")?.as_str(),
        "{\"identifier\":\"a\\\"b\",\"type\":\"confirm_subscription\"}"
    );
    assert_eq!(rt;
        reject(alloc, "x")?.as_str(),
        "{\"identifier\":\"x\",\"type\":\"reject_subscription\"}"
    );
    for (reason, reconnect, bytes) in [
        (
            Reason::Unauthorized,
            false,
            "{\"type\":\"disconnect\",\"reason\":\"unauthorized\",\"reconnect\":false}",
        ),
        (
            Reason::InvalidRequest,
            false,
            "{\"type\":\"disconnect\",\"reason\":\"invalid_request\",\"reconnect\":false}",
        ),
        (
            Reason::ServerRestart,
            true,
            "{\"type\":\"disconnect\",\"reason\":\"server_restart\",\"reconnect\":true}",
        ),
        (
            Reason::Remote,
            true,
            "{\"type\":\"disconnect\",\"reason\":\"remote\",\"reconnect\":true}",
        ),
    ] {
        assert_eq!(rt; disconnect(alloc, reason, reconnect)?.as_str(), bytes);
    }
    Ok(())
}

#[test]
fn identifier_is_written_with_the_shortest_escapes(rt: HostRuntime) -> Result<(), Fail> {
    let alloc = rt.alloc();
    let asked = "{\"command\":\"subscribe\",\"identifier\":\
        \"\\u0041\\/ \\u0022\\u005c\\u0008\\u0009\\u000a\\u000c\\u000d\\u0000\\u001F\\u003c&\\u00e9\"}";
    let characters = "A/ \"\\\u{8}\t\n\u{c}\r\u{0}\u{1f}<&é";
    let Command::Subscribe { identifier } = read(alloc, asked)? else {
        return Err("no subscribe".into());
    };
    assert_eq!(rt; identifier.as_str(), characters);
    assert_eq!(rt;
        confirm(alloc, characters)?.as_str(),
        "{\"identifier\":\"A/ \\\"\\\\\\b\\t\\n\\f\\r\\u0000\\u001f<&é\",\"type\":\"confirm_subscription\"}"
    );
    Ok(())
}

#[test]
fn payload_stands_in_a_message_as_it_is(rt: HostRuntime) -> Result<(), Fail> {
    let alloc = rt.alloc();
    for (text, bytes) in [
        (
            "{\"command\":\"message\",\"identifier\":\"x\",\"data\":\"null\"}",
            "{\"identifier\":\"x\",\"message\":null}",
        ),
        (
            "{\"command\":\"message\",\"identifier\":\"x\",\"data\":\" [ \\\"a \\\\u0062\\\" , -0 ] \"}",
            "{\"identifier\":\"x\",\"message\":[\"a \\u0062\",-0]}",
        ),
    ] {
        let command = read_command(alloc, text).ok().ok_or("no command")?;
        let Command::Message {
            identifier,
            payload,
        } = command
        else {
            return Err("no message".into());
        };
        let message = message(alloc, identifier.as_str(), payload.as_str())?;
        assert_eq!(rt; message.as_str(), bytes);
    }
    Ok(())
}

#[test]
fn disconnect_is_told_from_other_payloads(rt: HostRuntime) -> Result<(), Fail> {
    for (payload, reconnect) in [
        ("{\"type\":\"disconnect\",\"reconnect\":false}", Some(false)),
        ("{\"type\":\"disconnect\"}", Some(true)),
        ("{\"type\":\"disconnect\",\"reconnect\":true}", Some(true)),
        ("{\"type\":\"disconnect\",\"reconnect\":null}", Some(true)),
        (
            "{\"type\":\"disconnect\",\"reconnect\":\"false\"}",
            Some(true),
        ),
        (
            "{\"type\":\"disconnect\",\"reconnect\":false,\"reconnect\":0}",
            Some(true),
        ),
        ("{\"t\\u0079pe\":\"disconnect\"}", Some(true)),
        ("{\"type\":\"disconnect\",\"type\":\"ping\"}", None),
        ("{\"type\":\"Disconnect\"}", None),
        ("[\"type\",\"disconnect\"]", None),
        ("{\"type\":\"disconnect\"", None),
        ("null", None),
    ] {
        assert_eq!(rt; remote(rt.alloc(), payload)?, reconnect, "at {payload}");
    }
    Ok(())
}
