//! Worked scripts, answered over ends in memory.

ghost use Rattle.std.specs.Prelude.{◌<◌};

use crate::execution::{Status, run};
use sf_io::{MemSink, MemSource};
use sf_pairs::{FirstStrategy, Strategy};
use std::alloc::Global;
use std::cell::Cell;
use std::rc::Rc;
use std::test::Fail;

const FIRST: &[u8] = b"spectral 1\nring 101 x y\nmodule K degrees 0 relations [x;y]\nshow K\n";

const FIRST_REPLIES: &[u8] = b"ok\nok\nok\ndegrees (0)\nrels (1,1)->(0) [x;y]\n";

const RESOLUTION: &[u8] =
    b"spectral 1\nring 101 x y\nmodule K degrees 0 relations [x;y]\nmodule R degrees 0 relations []\nresolve K 3\n";

/// What a run over this script writes, and how it ends. Each end moves at most `piece` bytes in a call; the
/// lists have the numbers of the pulls and of the pushes that fail.
fn run_over(
    alloc: Global,
    words: &[&str],
    script: &[u8],
    piece: usize,
    pulls: &[u32],
    pushes: &[u32],
) -> Result<(Status, MemSink), Fail>
    requires { 0 < piece }
{
    let mut given = Vec::new(alloc);
    for word in words {
        given.push(String::from_str(alloc, word)?)?;
    }
    let mut strategies: Vec<Box<dyn Strategy>> = Vec::new(alloc);
    strategies.push(Box::new(alloc, FirstStrategy)?)?;
    let bytes = Vec::from_slice(alloc, script)?;
    let mut source = MemSource::new(bytes, piece, Vec::from_slice(alloc, pulls)?);
    let mut sink = MemSink::new(alloc, piece, Vec::from_slice(alloc, pushes)?);
    sink.reserve(4096)?;
    let status = run(alloc, given.as_slice(), &mut source, &mut sink, strategies);
    Ok((status, sink))
}

fn answered(alloc: Global, words: &[&str], script: &[u8]) -> Result<(Status, MemSink), Fail> {
    run_over(alloc, words, script, 4096, &[], &[])
}

#[test]
fn answers_scripts(rt: HostRuntime) -> Result<(), Fail> {
    let cases: [(&[u8], &[u8]); 10] = [
        (b"", b""),
        (FIRST, FIRST_REPLIES),
        (
            b"show K\nspectral 2\nspectral 000001\nspectral 1",
            b"error ring\nerror ring\nok\nerror ring\n",
        ),
        (
            b"spectral 1\nring 9 x\nring 101 x x\nring 0101 x\nring 101 x\n",
            b"ok\nerror ring\nerror ring\nok\nerror ring\n",
        ),
        (
            b"modul K\n show K\nshow K L\nshow 1\nshow K\r\r\nmodule\nmodule K degrees 0 relations [x;",
            b"error syntax 6\nerror syntax 1\nerror syntax 8\nerror syntax 6\nerror syntax 7\nerror syntax 7\nerror syntax 33\n",
        ),
        (b"\n  \n# note\n\r\n#\xff\0", b""),
        (
            b"@\nhom K K\nbasis K\nlimit 1\nlimit x\nshow K\n",
            b"error later\nerror later\nerror ring\nerror ring\nerror syntax 7\nerror ring\n",
        ),
        (
            b"spectral 1\r\nring 2 a\r\nmodule A degrees -7 relations []  \r\nshow  A\r\n",
            b"ok\nok\nok\ndegrees (-7)\nrels ()->(-7) []\n",
        ),
        (
            b"spectral 1\nring 101 x y\nmodule P degrees 1 0 relations [x,x^2+y^2;0,0]\nshow P\nmodule Q degrees 0 relations [102*x-y]\nshow Q\n",
            b"ok\nok\nok\ndegrees (1,0)\nrels (2,0)->(1,0) [x,x^2+y^2;0,0]\nok\ndegrees (0)\nrels (1)->(0) [x+100*y]\n",
        ),
        (
            b"spectral 1\nring 3 x y\nmodule A degrees 2001 relations [x;x+1]\nmodule A degrees 2001 relations [x]\nmodule A degrees 0 relations [z+1]\nmodule A degrees 0 relations [x,y]\nmodule A degrees relations []\nmodule A degrees 0 relations [1]\n",
            b"ok\nok\nerror degree 2\nerror range\nerror name z\nerror shape\nok\nerror taken A\n",
        ),
    ];
    for (script, wanted) in cases {
        let (status, sink) = answered(rt.alloc(), &["run"], script)?;
        assert_eq!(rt; status, Status::Done);
        assert_eq!(rt; sink.bytes(), wanted);
    }
    Ok(())
}

const BASES: &[u8] =
    b"spectral 1\nring 101 x y\nmodule N degrees 0 relations [x^2;x*y+y^2]\nbasis N\nmember N [y^3]\nmember N [y^2]\n";

const BASES_REPLIES: &[u8] =
    b"ok\nok\nok\nbasis (2,2,3)->(0) [x^2;x*y+y^2;y^3]\nmember yes\nmember no\n";

#[test]
fn answers_by_bases(rt: HostRuntime) -> Result<(), Fail> {
    let cases: [(&[u8], &[u8]); 4] = [
        (BASES, BASES_REPLIES),
        (
            b"spectral 1\nring 101 x y\nlimit 2\nmodule N degrees 0 relations [x^2;x*y+y^2]\nbasis N\nmodule K degrees 0 relations [x;y]\nbasis K\nmember N [x^3]\n",
            b"ok\nok\nok\nok\nerror large 2 1\nok\nbasis (1,1)->(0) [x;y]\nerror large 2 1\n",
        ),
        (
            b"spectral 1\nring 101 x y\nlimit 61\nlimit 1\nmodule K degrees 0 relations [x;y]\nbasis K\nlimit 5\nmember K [x+1]\nmember K [w,1]\nmember K []\nmember L [w]\n",
            b"ok\nok\nerror range\nok\nok\nbasis (1,1)->(0) [x;y]\nerror ring\nerror degree 1\nerror name w\nerror shape\nerror name L\n",
        ),
        (
            b"spectral 1\nring 101 x y\nmodule F degrees 0 3 relations []\nbasis F\nmember F [0,0]\nmember F [x,0]\nmodule Z degrees relations []\nmember Z []\n",
            b"ok\nok\nok\nbasis ()->(0,3) []\nmember yes\nmember no\nok\nmember yes\n",
        ),
    ];
    for (script, wanted) in cases {
        let (status, sink) = answered(rt.alloc(), &["run"], script)?;
        assert_eq!(rt; status, Status::Done);
        assert_eq!(rt; sink.bytes(), wanted);
    }
    Ok(())
}

const LIFTS: &[u8] =
    b"spectral 1\nring 101 x y\nmodule N degrees 0 relations [x^2;x*y+y^2]\nlift N [y^3]\nlift N [y^2]\nmember N [y^2]\nsyz N\nlift N [x^3*y+x^2*y^2]\nlift N [0]\n";

const LIFTS_REPLIES: &[u8] =
    b"ok\nok\nok\nlift (3)->(2,2) [y,100*x+y]\nerror none\nmember no\nsyz (4)->(2,2) [x*y+y^2,100*x^2]\nlift (4)->(2,2) [0,x^2]\nlift (0)->(2,2) [0,0]\n";

#[test]
fn answers_by_lifts(rt: HostRuntime) -> Result<(), Fail> {
    let cases: [(&[u8], &[u8]); 3] = [
        (LIFTS, LIFTS_REPLIES),
        (
            b"spectral 1\nring 101 x y\nmodule F degrees 0 relations []\nlift F [x]\nlift F [0]\nsyz F\nmodule Z degrees 1 relations [0]\nsyz Z\nlift Z [0]\n",
            b"ok\nok\nok\nerror none\nlift (0)->() []\nsyz ()->() []\nok\nsyz (0)->(0) [1]\nlift (0)->(0) [0]\n",
        ),
        (
            b"spectral 1\nring 101 x y\nlimit 2\nmodule N degrees 0 relations [x^2;x*y+y^2]\nlift N [y^2]\nsyz N\nlift M [x]\nlift N [z]\nlift N [x,x]\nlift N [x+1]\n",
            b"ok\nok\nok\nok\nerror large 2 1\nerror large 2 1\nerror name M\nerror name z\nerror shape\nerror degree 1\n",
        ),
    ];
    for (script, wanted) in cases {
        let (status, sink) = answered(rt.alloc(), &["run"], script)?;
        assert_eq!(rt; status, Status::Done);
        assert_eq!(rt; sink.bytes(), wanted);
    }
    Ok(())
}

const MAPS: &[u8] =
    b"spectral 1\nring 101 x y\nmodule K degrees 0 relations [x;y]\nmodule R degrees 0 relations []\nmap f R K [1]\nkernel f\nimage f\ncoker f\nmap g K R [1]\nlet I = kernel f\nshow I\n";

const MAPS_REPLIES: &[u8] =
    b"ok\nok\nok\nok\nok\ngens (1,1)->(0) [x;y]\nrels (2)->(1,1) [y,100*x]\ngens (0)->(0) [1]\nrels (1,1)->(0) [x;y]\ngens ()->(0) []\nrels ()->() []\nerror map 1\nok\ndegrees (1,1)\nrels (2)->(1,1) [y,100*x]\n";

#[test]
fn answers_by_maps(rt: HostRuntime) -> Result<(), Fail> {
    let cases: [(&[u8], &[u8]); 4] = [
        (MAPS, MAPS_REPLIES),
        (
            b"spectral 1\nring 101 x y\nmodule K degrees 0 relations [x;y]\nkernel K\nshow f\nmap f K K [2]\nshow f\nbasis f\nmap f K K [1]\nmap g K f [1]\nmap g K K [1,1]\nmap g K K [x+1]\nlimit 5\n",
            b"ok\nok\nok\nerror kind K\nerror name f\nok\nmap (0)->(0) [2]\nerror kind f\nerror taken f\nerror kind f\nerror shape\nerror degree 1\nerror ring\n",
        ),
        (
            b"spectral 1\nring 101 x y\nlimit 2\nmodule F degrees 2 relations []\nmodule N degrees 0 relations [x*y]\nmap f F N [x^2+y^2]\nlet I = kernel f\nshow I\nlet I = kernel g\nlet f = kernel f\nlet I = hom F N\n",
            b"ok\nok\nok\nok\nok\nok\nerror large 2 1\nerror name I\nerror name g\nerror taken f\nerror later\n",
        ),
        (
            b"spectral 1\nring 2 a\nmodule F degrees 1 0 relations []\nmodule Z degrees relations []\nmap z Z F []\nmap y F Z []\nkernel y\nlet C = coker z\nshow C\n",
            b"ok\nok\nok\nok\nok\nok\ngens (0,1)->(1,0) [0,1;1,0]\nrels ()->(0,1) []\nok\ndegrees (0,1)\nrels ()->(0,1) []\n",
        ),
    ];
    for (script, wanted) in cases {
        let (status, sink) = answered(rt.alloc(), &["run"], script)?;
        assert_eq!(rt; status, Status::Done);
        assert_eq!(rt; sink.bytes(), wanted);
    }
    Ok(())
}

const RESOLUTIONS: &[u8] =
    b"spectral 1\nring 101 x y\nmodule K degrees 0 relations [x;y]\nmodule R degrees 0 relations []\nmodule Z degrees relations []\nshow K\nresolve Z 2\nmodule K degrees 0 relations []\nresolve K 1\nresolve K 3\nresolve K 0\nresolve K 17\nmodule A degrees 2001 relations []\nmodule A degrees 2000 relations []\nresolve L 1\nresolve K 16\n";

const RESOLUTIONS_REPLIES: &[u8] =
    b"ok\nok\nok\nok\nok\ndegrees (0)\nrels (1,1)->(0) [x;y]\nd1 ()->() []\nd2 ()->() []\nerror taken K\nd1 (1,1)->(0) [x;y]\nd1 (1,1)->(0) [x;y]\nd2 (2)->(1,1) [y,100*x]\nd3 ()->(2) []\nerror range\nerror range\nerror range\nok\nerror name L\nd1 (1,1)->(0) [x;y]\nd2 (2)->(1,1) [y,100*x]\nd3 ()->(2) []\nd4 ()->() []\nd5 ()->() []\nd6 ()->() []\nd7 ()->() []\nd8 ()->() []\nd9 ()->() []\nd10 ()->() []\nd11 ()->() []\nd12 ()->() []\nd13 ()->() []\nd14 ()->() []\nd15 ()->() []\nd16 ()->() []\n";

#[test]
fn answers_by_resolutions(rt: HostRuntime) -> Result<(), Fail> {
    let cases: [(&[u8], &[u8]); 3] = [
        (RESOLUTIONS, RESOLUTIONS_REPLIES),
        (
            b"spectral 1\nring 101 x y z\nmodule K degrees 0 relations [x;y;z]\nresolve K 4\n",
            b"ok\nok\nok\nd1 (1,1,1)->(0) [x;y;z]\nd2 (2,2,2)->(1,1,1) [y,100*x,0;z,0,100*x;0,z,100*y]\nd3 (3)->(2,2,2) [z,100*y,x]\nd4 ()->(3) []\n",
        ),
        (
            b"spectral 1\nring 101 x y\nlimit 2\nmodule N degrees 0 relations [x^2;x*y+y^2]\nresolve N 1\nmodule P degrees 0 relations [x*y;x^2]\nresolve P 1\nresolve P 2\n",
            b"ok\nok\nok\nok\nerror large 2 1\nok\nd1 (2,2)->(0) [x^2;x*y]\nd1 (2,2)->(0) [x^2;x*y]\nd2 (3)->(2,2) [y,100*x]\n",
        ),
    ];
    for (script, wanted) in cases {
        let (status, sink) = answered(rt.alloc(), &["run"], script)?;
        assert_eq!(rt; status, Status::Done);
        assert_eq!(rt; sink.bytes(), wanted);
    }
    Ok(())
}

#[test]
fn answers_by_complexes(rt: HostRuntime) -> Result<(), Fail> {
    let cases: [(&[u8], &[u8]); 2] = [
        (
            b"spectral 1\nring 101 x y\nmodule K degrees 0 relations [x;y]\nmodule R degrees 0 relations []\nmodule A degrees 1 relations []\nmodule B degrees 2 relations []\nmap f A R [x]\nmap g B A [x]\ncomplex C maps f g\ncomplex C maps g f\nshow C\ncomplex C maps f\nshow C\nbasis C\ncomplex D maps C\ncomplex C maps f\ncomplex D maps f K h\n",
            b"ok\nok\nok\nok\nok\nok\nok\nok\nerror square 1 0\nerror shape\nerror name C\nok\nd1 (1)->(0) [x]\nerror kind C\nerror kind C\nerror taken C\nerror name h\n",
        ),
        (
            b"spectral 1\nring 101 x y\nmodule R degrees 0 relations []\nmodule A degrees 1 1 relations []\nmodule B degrees 2 relations []\nmap f A R [x;y]\nmap g B A [y,-x]\ncomplex C maps f g\nshow C\nmodule Z degrees relations []\nmap h Z B []\ncomplex D maps f g h\nshow D\n",
            b"ok\nok\nok\nok\nok\nok\nok\nok\nd1 (1,1)->(0) [x;y]\nd2 (2)->(1,1) [y,100*x]\nok\nok\nok\nd1 (1,1)->(0) [x;y]\nd2 (2)->(1,1) [y,100*x]\nd3 ()->(2) []\n",
        ),
    ];
    for (script, wanted) in cases {
        let (status, sink) = answered(rt.alloc(), &["run"], script)?;
        assert_eq!(rt; status, Status::Done);
        assert_eq!(rt; sink.bytes(), wanted);
    }
    Ok(())
}

/// Takes the last pair, and counts how often it was asked.
#[derive(Drop)]
struct Counting {
    calls: Rc<Cell<u32>>,
}

impl Strategy for Counting {
    fn choose(&mut self, count: usize) -> usize {
        self.calls.set(self.calls.get().saturating_add(1));
        count - 1
    }

    fn told(&mut self, _zero: bool) {}
}

#[test]
fn answers_by_any_strategy(rt: HostRuntime) -> Result<(), Fail> {
    let alloc = rt.alloc();
    let calls = Rc::new(alloc, Cell::new(0))?;
    let counting = Counting {
        calls: calls.clone()?,
    };
    let mut strategies: Vec<Box<dyn Strategy>> = Vec::new(alloc);
    strategies.push(Box::new(alloc, counting)?)?;
    let mut words = Vec::new(alloc);
    words.push(String::from_str(alloc, "run")?)?;
    let mut source = MemSource::new(Vec::from_slice(alloc, BASES)?, 4096, Vec::new(alloc));
    let mut sink = MemSink::new(alloc, 4096, Vec::new(alloc));
    sink.reserve(4096)?;
    let status = run(alloc, words.as_slice(), &mut source, &mut sink, strategies);
    assert_eq!(rt; status, Status::Done);
    assert_eq!(rt; sink.bytes(), BASES_REPLIES);
    assert!(rt; 0 < calls.get());
    Ok(())
}

#[test]
fn refuses_words(rt: HostRuntime) -> Result<(), Fail> {
    let cases: [&[&str]; 4] = [&[], &["check"], &["run", "run"], &["run "]];
    for words in cases {
        let (status, sink) = answered(rt.alloc(), words, FIRST)?;
        assert_eq!(rt; status, Status::Usage);
        assert_eq!(rt; sink.bytes(), b"".as_slice());
    }
    Ok(())
}

#[test]
fn tells_a_failing_source(rt: HostRuntime) -> Result<(), Fail> {
    for k in 1..=FIRST.len() as u32 + 1 {
        let (status, sink) = run_over(rt.alloc(), &["run"], FIRST, 1, &[k], &[])?;
        assert_eq!(rt; status, Status::ReadFault, "pull {k}");
        assert_eq!(rt; sink.bytes(), b"".as_slice());
    }
    Ok(())
}

#[test]
fn tells_a_failing_sink(rt: HostRuntime) -> Result<(), Fail> {
    for written in 0..=FIRST_REPLIES.len() {
        let push = written as u32 + 1;
        let (status, sink) = run_over(rt.alloc(), &["run"], FIRST, 1, &[], &[push])?;
        let whole = written == FIRST_REPLIES.len();
        let wanted = if whole {
            Status::Done
        } else {
            Status::WriteFault
        };
        assert_eq!(rt; status, wanted, "push {push}");
        assert_eq!(rt; sink.bytes(), &FIRST_REPLIES[..written]);
    }

    // Each reply is one push where the sink takes it whole.
    let (status, sink) = run_over(rt.alloc(), &["run"], RESOLUTION, 4096, &[], &[2])?;
    assert_eq!(rt; status, Status::WriteFault);
    assert_eq!(rt; sink.bytes(), b"ok\n".as_slice());
    Ok(())
}

#[test]
fn limits_the_length(rt: HostRuntime) -> Result<(), Fail> {
    for (length, wanted) in [(1_048_576, Status::Done), (1_048_577, Status::TooLong)] {
        let script = vec![in rt.alloc(); b'#'; length]?;
        let (status, sink) = answered(rt.alloc(), &["run"], script.as_slice())?;
        assert_eq!(rt; status, wanted);
        assert_eq!(rt; sink.bytes(), b"".as_slice());
    }
    Ok(())
}
