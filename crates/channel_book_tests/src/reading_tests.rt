use cable_base::Text;
use channel_book::{Book, BookFault};
use std::alloc::{AllocError, Global};
use std::test::Fail;

/// Texts, each behind what reading it answers: for each place of the walk each way to break the format there, and then books.
const READINGS: &str = r#"bad-json <- {
bad-json <- {"channels":[]} x
bad-shape  <- []
bad-shape  <- null
bad-shape /tokens <- {"tokens":null,"channels":[]}
bad-shape /tokens <- {"tokens":["t"],"channels":[]}
bad-shape /tokens <- {"tokens":{"t":"u","s":1},"channels":[]}
bad-shape /tokens <- {"tokens":{"t":null}}
bad-shape /tokens <- {"tokens":1,"channels":1}
bad-shape /channels <- {}
bad-shape /channels <- {"channels":null}
bad-shape /channels <- {"channels":{}}
bad-shape /channels/0 <- {"channels":["A"]}
bad-shape /channels/0/name <- {"channels":[{}]}
bad-shape /channels/0/name <- {"channels":[{"name":null}]}
bad-shape /channels/0/name <- {"channels":[{"name":"","requires":1,"streams":1}]}
bad-shape /channels/1/name <- {"channels":[{"name":"A"},{"name":""}]}
bad-shape /channels/1 <- {"channels":[{"name":"A"},[]]}
bad-shape /channels/0/requires <- {"channels":[{"name":"A","requires":null}]}
bad-shape /channels/0/requires <- {"channels":[{"name":"A","requires":{}}]}
bad-shape /channels/0/requires <- {"channels":[{"name":"A","requires":[1]}]}
bad-shape /channels/0/requires <- {"channels":[{"name":"A","requires":["x",""]}]}
bad-shape /channels/0/requires <- {"channels":[{"name":"A","requires":["user"]}]}
bad-shape /channels/0/requires <- {"channels":[{"name":"A","requires":["a{"]}]}
bad-shape /channels/0/requires <- {"channels":[{"name":"A","requires":["a}"]}]}
bad-shape /channels/0/requires <- {"channels":[{"name":"A","requires":["x","y","x"]}]}
bad-shape /channels/0/requires <- {"channels":[{"name":"A","requires":["x","\u0078"]}]}
bad-shape /channels/0/requires <- {"channels":[{"name":"A","actions":1,"leave":1,"enter":1,"says":1,"streams":1,"requires":1},1]}
bad-shape /channels/0/streams <- {"channels":[{"name":"A","streams":"s"}]}
bad-shape /channels/0/streams <- {"channels":[{"name":"A","actions":1,"leave":1,"enter":1,"says":1,"streams":1},1]}
bad-shape /channels/0/streams <- {"channels":[{"name":"A","streams":null}]}
bad-shape /channels/0/streams/0 <- {"channels":[{"name":"A","streams":["{x}"]}]}
bad-shape /channels/1/streams/0 <- {"channels":[{"name":"A","requires":["x"]},{"name":"B","streams":["{x}"]}]}
bad-shape /channels/0/streams/1 <- {"channels":[{"name":"A","streams":["s",1]}]}
bad-shape /channels/0/streams/1 <- {"channels":[{"name":"A","requires":["x"],"streams":["{x}{user}","{"]}]}
bad-shape /channels/0/streams/1 <- {"channels":[{"name":"A","requires":["x"],"streams":["{x}{user}","}"]}]}
bad-shape /channels/0/streams/1 <- {"channels":[{"name":"A","requires":["x"],"streams":["{x}{user}","{}"]}]}
bad-shape /channels/0/streams/1 <- {"channels":[{"name":"A","requires":["x"],"streams":["{x}{user}","{x"]}]}
bad-shape /channels/0/streams/1 <- {"channels":[{"name":"A","requires":["x"],"streams":["{x}{user}","x}"]}]}
bad-shape /channels/0/streams/1 <- {"channels":[{"name":"A","requires":["x"],"streams":["{x}{user}","{x}}"]}]}
bad-shape /channels/0/streams/1 <- {"channels":[{"name":"A","requires":["x"],"streams":["{x}{user}","{{x}}"]}]}
bad-shape /channels/0/streams/1 <- {"channels":[{"name":"A","requires":["x"],"streams":["{x}{user}","{x{user}}"]}]}
bad-shape /channels/0/streams/1 <- {"channels":[{"name":"A","requires":["x"],"streams":["{x}{user}","{user}{"]}]}
bad-shape /channels/0/streams/1 <- {"channels":[{"name":"A","requires":["x"],"streams":["{x}{user}","{ x}"]}]}
bad-shape /channels/0/streams/1 <- {"channels":[{"name":"A","requires":["x"],"streams":["{x}{user}","{y}"]}]}
bad-shape /channels/0/streams/10 <- {"channels":[{"name":"A","streams":["0","1","2","3","4","5","6","7","8","9","{","}"]}]}
bad-shape /channels/0/says <- {"channels":[{"name":"A","says":1}]}
bad-shape /channels/0/says <- {"channels":[{"name":"A","actions":1,"leave":1,"enter":1,"says":1},1]}
bad-shape /channels/0/says <- {"channels":[{"name":"A","says":null}]}
bad-shape /channels/0/says/0 <- {"channels":[{"name":"A","says":["1 2"]}]}
bad-shape /channels/0/says/0 <- {"channels":[{"name":"A","says":["\"\\ud800\""]}]}
bad-shape /channels/1/says/0 <- {"channels":[{"name":"A","streams":["action_cable/x"]},{"name":"B","says":["{"]}]}
bad-shape /channels/0/says/1 <- {"channels":[{"name":"A","says":["1",1]}]}
bad-shape /channels/0/enter <- {"channels":[{"name":"A","enter":{}}]}
bad-shape /channels/0/enter <- {"channels":[{"name":"A","actions":1,"leave":1,"enter":1},1]}
bad-shape /channels/0/enter <- {"channels":[{"name":"A","enter":null}]}
bad-shape /channels/0/enter/1 <- {"channels":[{"name":"A","enter":[{"to":"s","payload":"1"},"s"]}]}
bad-shape /channels/0/enter/1 <- {"channels":[{"name":"A","enter":[{"to":"s","payload":"1"},{"payload":"1"}]}]}
bad-shape /channels/0/enter/1 <- {"channels":[{"name":"A","enter":[{"to":"s","payload":"1"},{"to":1,"payload":"1"}]}]}
bad-shape /channels/0/enter/1 <- {"channels":[{"name":"A","enter":[{"to":"s","payload":"1"},{"to":"{x}","payload":"1"}]}]}
bad-shape /channels/0/enter/1 <- {"channels":[{"name":"A","enter":[{"to":"s","payload":"1"},{"to":"s"}]}]}
bad-shape /channels/0/enter/1 <- {"channels":[{"name":"A","enter":[{"to":"s","payload":"1"},{"to":"s","payload":1}]}]}
bad-shape /channels/0/enter/1 <- {"channels":[{"name":"A","enter":[{"to":"s","payload":"1"},{"to":"s","payload":""}]}]}
bad-shape /channels/0/leave <- {"channels":[{"name":"A","leave":{}}]}
bad-shape /channels/0/leave <- {"channels":[{"name":"A","actions":1,"leave":1},1]}
bad-shape /channels/0/leave <- {"channels":[{"name":"A","leave":null}]}
bad-shape /channels/0/leave/1 <- {"channels":[{"name":"A","leave":[{"to":"s","payload":"1"},"s"]}]}
bad-shape /channels/0/leave/1 <- {"channels":[{"name":"A","leave":[{"to":"s","payload":"1"},{"payload":"1"}]}]}
bad-shape /channels/0/leave/1 <- {"channels":[{"name":"A","leave":[{"to":"s","payload":"1"},{"to":1,"payload":"1"}]}]}
bad-shape /channels/0/leave/1 <- {"channels":[{"name":"A","leave":[{"to":"s","payload":"1"},{"to":"{x}","payload":"1"}]}]}
bad-shape /channels/0/leave/1 <- {"channels":[{"name":"A","leave":[{"to":"s","payload":"1"},{"to":"s"}]}]}
bad-shape /channels/0/leave/1 <- {"channels":[{"name":"A","leave":[{"to":"s","payload":"1"},{"to":"s","payload":1}]}]}
bad-shape /channels/0/leave/1 <- {"channels":[{"name":"A","leave":[{"to":"s","payload":"1"},{"to":"s","payload":""}]}]}
bad-shape /channels/0/actions <- {"channels":[{"name":"A","actions":{}}]}
bad-shape /channels/0/actions <- {"channels":[{"name":"A","actions":1},1]}
bad-shape /channels/0/actions <- {"channels":[{"name":"A","actions":null}]}
bad-shape /channels/0/actions/0/name <- {"channels":[{"name":"A","actions":[{}]}]}
bad-shape /channels/0/actions/0/name <- {"channels":[{"name":"A","actions":[{"name":""}]}]}
bad-shape /channels/0/actions/0/name <- {"channels":[{"name":"A","actions":[{"name":7}]}]}
bad-shape /channels/0/actions/0/casts <- {"channels":[{"name":"A","requires":["x"],"actions":[{"name":"a","casts":{}}]}]}
bad-shape /channels/0/actions/0/casts <- {"channels":[{"name":"A","requires":["x"],"actions":[{"name":"a","stops":1,"streams":1,"echo":1,"casts":1}]}]}
bad-shape /channels/0/actions/0/casts/1 <- {"channels":[{"name":"A","requires":["x"],"actions":[{"name":"a","casts":["{x}","{y}"]}]}]}
bad-shape /channels/0/actions/0/casts/1 <- {"channels":[{"name":"A","actions":[{"name":"a","casts":["s",true]}]}]}
bad-shape /channels/0/actions/0/echo <- {"channels":[{"name":"A","requires":["x"],"actions":[{"name":"a","echo":null}]}]}
bad-shape /channels/0/actions/0/echo <- {"channels":[{"name":"A","requires":["x"],"actions":[{"name":"a","echo":1}]}]}
bad-shape /channels/0/actions/0/echo <- {"channels":[{"name":"A","requires":["x"],"actions":[{"name":"a","stops":1,"streams":1,"echo":1}]}]}
bad-shape /channels/0/actions/0/streams <- {"channels":[{"name":"A","requires":["x"],"actions":[{"name":"a","streams":{}}]}]}
bad-shape /channels/0/actions/0/streams <- {"channels":[{"name":"A","requires":["x"],"actions":[{"name":"a","stops":1,"streams":1}]}]}
bad-shape /channels/0/actions/0/streams <- {"channels":[{"name":"A","actions":[{"name":"a","streams":null}]}]}
bad-shape /channels/0/actions/0/streams/1 <- {"channels":[{"name":"A","requires":["x"],"actions":[{"name":"a","streams":["{x}","{y}"]}]}]}
bad-shape /channels/0/actions/0/stops <- {"channels":[{"name":"A","requires":["x"],"actions":[{"name":"a","stops":{}}]}]}
bad-shape /channels/0/actions/0/stops/0 <- {"channels":[{"name":"A","actions":[{"name":"a","stops":[[]]}]}]}
bad-shape /channels/0/actions/0/stops/1 <- {"channels":[{"name":"A","requires":["x"],"actions":[{"name":"a","stops":["{x}","{y}"]}]}]}
bad-shape /channels/0/actions/1 <- {"channels":[{"name":"A","actions":[{"name":"a"},"b"]}]}
bad-shape /channels/1/actions/2/stops/1 <- {"channels":[{"name":"A"},{"name":"B","requires":["x"],"actions":[{"name":"a"},{"name":"b"},{"name":"c","stops":["{x}","{z}"]}]}]}
reserved-stream action_cable/x <- {"channels":[{"name":"A","streams":["s","action_cable/x"]}]}
reserved-stream action_cable/{user} <- {"channels":[{"name":"A","enter":[{"to":"action_cable/{user}","payload":"1"}]}]}
reserved-stream action_cable/ <- {"channels":[{"name":"A","leave":[{"to":"action_cable/","payload":"1"}]}]}
reserved-stream action_cable/{x} <- {"channels":[{"name":"A","requires":["x"],"actions":[{"name":"a","casts":["action_cable/{x}"]}]}]}
reserved-stream action_cable/{x} <- {"channels":[{"name":"A","requires":["x"],"actions":[{"name":"a","streams":["action_cable/{x}"]}]}]}
reserved-stream action_cable/{x} <- {"channels":[{"name":"A","requires":["x"],"actions":[{"name":"a","stops":["action_cable/{x}"]}]}]}
reserved-stream action_cable/1 <- {"channels":[{"name":"A","requires":["x"],"actions":[{"name":"a","stops":["action_cable/3"],"streams":["action_cable/2"],"casts":["action_cable/1"]}]}]}
reserved-stream action_cable/2 <- {"channels":[{"name":"A","requires":["x"],"actions":[{"name":"a","stops":["action_cable/3"],"streams":["action_cable/2"]}]}]}
reserved-stream action_cable/1 <- {"channels":[{"name":"A","actions":[{"name":"a","casts":["action_cable/3"]}],"leave":[{"to":"action_cable/2","payload":"1"}],"enter":[{"to":"action_cable/1","payload":"1"}]}]}
reserved-stream action_cable/1 <- {"channels":[{"name":"A","actions":[{"name":"a"},{"name":"b","stops":["action_cable/1"]}]},{"name":"B","streams":["action_cable/2"]}]}
reserved-stream action_cable/x <- {"channels":[{"name":"A"},{"name":"A","streams":["action_cable/x"]}]}
reserved-stream action_cable/x <- {"channels":[{"name":"A","streams":["action_cable/x"]}]}
repeated-name A <- {"channels":[{"name":"A"},{"name":"B"},{"name":"\u0041"}]}
repeated-name a <- {"channels":[{"name":"A","actions":[{"name":"a"},{"name":"b"},{"name":"a"}]}]}
repeated-name a <- {"channels":[{"name":"A","actions":[{"name":"a"},{"name":"a"}]},{"name":"A"}]}
repeated-name A <- {"channels":[{"name":"A"},{"name":"A","actions":[{"name":"a"},{"name":"a"}]}]}
repeated-name A <- {"channels":[{"name":"A"},{"name":"A"}]}
read <- {"channels":[]}
read <- {"tokens":{},"channels":[{"name":"A"},{"name":"a"},{"name":" "}],"other":{"channels":1}}
read <- {"tokens":{"":"","t":"u"},"channels":[{"name":"A","requires":[],"streams":[""],"says":[" 1 "],"enter":[],"leave":[],"actions":[],"more":null}]}
read <- {"channels":[{"name":"A","actions":[{"name":"a","casts":[],"echo":false,"streams":[],"stops":[]}]},{"name":"B","actions":[{"name":"a"}]}]}
read <- {"channels":[{"name":"A","requires":["x","user "],"streams":["{x}","{user}{user }","action_cable","x/action_cable/","{x}action_cable/"]}]}
read <- {"channels":1,"channels":[]}
read <- {"channels":[{"name":"A","enter":[{"to":"","payload":"null","more":1}],"actions":[{"name":"a","more":1}]}]}"#;

/// What reading a book answered.
fn told(alloc: Global, read: Result<Book, BookFault>) -> Result<String, AllocError> {
    match read {
        Ok(_) => String::from_str(alloc, "read"),
        Err(BookFault::BadJson) => String::from_str(alloc, "bad-json"),
        Err(BookFault::BadShape { path }) => {
            let path = path.as_str();
            format!(in alloc; "bad-shape {path}")
        }
        Err(BookFault::ReservedStream { template }) => {
            let template = template.as_str();
            format!(in alloc; "reserved-stream {template}")
        }
        Err(BookFault::RepeatedName { name }) => {
            let name = name.as_str();
            format!(in alloc; "repeated-name {name}")
        }
        Err(BookFault::OutOfMemory) => String::from_str(alloc, "out-of-memory"),
    }
}

#[test]
fn tells_the_first_fault(rt: HostRuntime) -> Result<(), Fail> {
    let alloc = rt.alloc();
    for line in READINGS.lines() {
        let (want, text) = line.split_once(" <- ").ok_or("no text")?;
        let got = told(alloc, Book::read(alloc, text))?;
        assert_eq!(rt; got.as_str(), want, "at {text}");
    }
    Ok(())
}

/// A book with one user of so many bytes.
fn book_of_user(alloc: Global, bytes: u32) -> Result<String, AllocError> {
    let mut text = String::from_str(alloc, r#"{"tokens":{"t":""#)?;
    for _ in 0..bytes {
        text.push_str("u")?;
    }
    text.push_str(r#""},"channels":[]}"#)?;
    Ok(text)
}

#[test]
fn bounds_a_user(rt: HostRuntime) -> Result<(), Fail> {
    let alloc = rt.alloc();
    let text = book_of_user(alloc, 1000)?;
    assert_eq!(rt;
        told(alloc, Book::read(alloc, text.as_str()))?.as_str(),
        "read"
    );
    let text = book_of_user(alloc, 1001)?;
    assert_eq!(rt;
        told(alloc, Book::read(alloc, text.as_str()))?.as_str(),
        "bad-shape /tokens"
    );
    Ok(())
}
