//! What stands before the data of a page and behind them: the viewer. Written from `page/`; `.ci/checks` compares.

/// Up to the data.
pub(crate) const FRONT: &str = r##"<!doctype html>
<html lang="en">
<head>
<meta charset="utf-8">
<meta name="viewport" content="width=device-width, initial-scale=1">
<meta name="color-scheme" content="light dark">
<meta http-equiv="Content-Security-Policy" content="default-src 'none'; script-src 'sha256-M/VpZ2jaf6efB+7A9uZ5bRIjXQFgMoldoX1CBSFOTN4='; style-src 'sha256-MX3mXLQhvid4khya5qAKUTzjsuhh0nfD9uBpCY12KWI='; base-uri 'none'; form-action 'none'">
<title>A replay</title>
<style>:root {
    --page: #ffffff; --panel: #f7f8fa; --text: #1c2127; --quiet: #5c6670; --rule: #d9dee4; --lane: #f1f3f6; --accent: #1a5fb4; --mark: #ffe3a3; --mark-text: #3b2a00;
    --same: #a9b5c1; --other: #dfe4ea;
    --c1: #d1495b; --c2: #1f9e78; --c3: #9a5fc0; --c4: #e08e2b; --c5: #b29a10; --c6: #2b78c5; --c7: #3fa9c9; --c8: #4a525c;
    --mono: ui-monospace, "SF Mono", Menlo, Consolas, "DejaVu Sans Mono", monospace;
}
@media screen and (prefers-color-scheme: dark) {
    :root:not(.paper) {
        --page: #14171b; --panel: #1b1f25; --text: #e3e7ec; --quiet: #98a2ad; --rule: #333a43; --lane: #1d2127; --accent: #79b4f7; --mark: #6b4d00; --mark-text: #ffe9b8;
        --same: #56616d; --other: #353c45;
        --c1: #e5687a; --c2: #37b890; --c3: #b68ada; --c4: #eba550; --c5: #c9b23c; --c6: #5a9fe4; --c7: #63c1dd; --c8: #cdd4dc;
    }
}
* { box-sizing: border-box; }
[hidden] { display: none !important; }
body { margin: 0 auto; max-width: 1480px; padding: 20px 24px 40px; background: var(--page); color: var(--text); font: 14px/1.45 system-ui, -apple-system, "Segoe UI", "DejaVu Sans", sans-serif; }
h1 { margin: 0; font-size: 22px; font-weight: 600; line-height: 1.25; overflow-wrap: anywhere; }
h2 { margin: 0; font-size: 14px; font-weight: 600; }
h3 { margin: 0; font-size: 12px; font-weight: 600; color: var(--quiet); }
h4 { margin: 0; font-size: 12px; font-weight: 400; color: var(--quiet); }
p { margin: 0; }
a { color: var(--accent); text-decoration: none; }
a:hover { text-decoration: underline; }
:focus-visible { outline: 2px solid var(--accent); outline-offset: 1px; }
bdi { unicode-bidi: isolate; direction: ltr; }
mark { background: var(--mark); color: var(--mark-text); border-radius: 2px; padding: 0 1px; }
.quiet { color: var(--quiet); }
.aside { position: absolute; width: 1px; height: 1px; overflow: hidden; clip-path: inset(50%); white-space: nowrap; }
.number, td.number { font-variant-numeric: tabular-nums; }
.sign { color: var(--quiet); border: 1px solid var(--rule); border-radius: 3px; padding: 0 2px; margin: 0 1px; font: 0.85em var(--mono); }
.none { padding: 24px 16px; color: var(--quiet); }

#summary { margin: 2px 0 12px; font-size: 16px; color: var(--quiet); }
#facts { display: flex; flex-wrap: wrap; gap: 4px 32px; margin: 0 0 18px; }
#facts dt { font-size: 12px; color: var(--quiet); }
#facts dd { margin: 0; font-variant-numeric: tabular-nums; overflow-wrap: anywhere; }

#filters { display: flex; flex-wrap: wrap; gap: 10px 32px; margin-bottom: 18px; }
#filters h2 { font-size: 12px; font-weight: 400; color: var(--quiet); margin-bottom: 4px; }
.filters { display: flex; flex-wrap: wrap; gap: 6px; }
button { font: inherit; color: inherit; background: var(--page); border: 1px solid var(--rule); border-radius: 6px; cursor: pointer; padding: 3px 10px; }
button:hover { border-color: var(--quiet); }
.filters button { display: inline-flex; align-items: center; gap: 7px; }
.filters code { font: 11px var(--mono); color: var(--quiet); }
.filters b { font-weight: 600; font-variant-numeric: tabular-nums; }
.filters button[aria-pressed="true"] { border-color: var(--accent); box-shadow: inset 0 0 0 1px var(--accent); }
.swatch { display: inline-block; flex: none; width: 10px; height: 10px; border-radius: 2px; background: var(--same); }
.c0 { background: var(--same); } .c1 { background: var(--c1); } .c2 { background: var(--c2); } .c3 { background: var(--c3); } .c4 { background: var(--c4); }
.c5 { background: var(--c5); } .c6 { background: var(--c6); } .c7 { background: var(--c7); } .c8 { background: var(--c8); }

#picture { border: 1px solid var(--rule); border-radius: 8px; padding: 10px 14px 10px 6px; margin-bottom: 18px; }
figure { margin: 0 0 8px; }
figcaption { display: flex; align-items: baseline; flex-wrap: wrap; gap: 2px 10px; padding: 0 0 6px 40px; }
figcaption .quiet { font-size: 12px; }
.buttons { margin-left: auto; display: flex; gap: 4px; }
.buttons button { min-width: 28px; padding: 0 8px; font-size: 12px; line-height: 22px; }
.plot { position: relative; }
canvas { display: block; width: 100%; cursor: crosshair; touch-action: pan-y; border-radius: 3px; }
.tip { position: absolute; z-index: 2; max-width: min(360px, 90%); padding: 6px 10px; background: var(--page); border: 1px solid var(--rule); border-radius: 6px; box-shadow: 0 4px 14px rgb(0 0 0 / 0.18); font-size: 12px; pointer-events: none; overflow: hidden; overflow-wrap: anywhere; }
.key { display: flex; flex-wrap: wrap; gap: 2px 20px; padding-left: 40px; font-size: 12px; color: var(--quiet); }
.key span { display: inline-flex; align-items: center; gap: 6px; }
.key .commit { width: 12px; height: 11px; background: var(--same); border-bottom: 2px solid var(--text); }
.key .wait { width: 16px; height: 1px; background: var(--quiet); transform: rotate(-20deg); }

#both { display: grid; grid-template-columns: minmax(0, 1fr) minmax(0, 1fr); gap: 18px; align-items: start; }
.head { display: flex; align-items: center; flex-wrap: wrap; gap: 4px 10px; }
#calls .head { min-height: 32px; margin-bottom: 6px; }
#shown { color: var(--quiet); font-variant-numeric: tabular-nums; }
#search { font: inherit; color: inherit; background: var(--page); border: 1px solid var(--rule); border-radius: 6px; padding: 4px 10px; margin-left: auto; width: 220px; max-width: 100%; }
#list { --row-height: 92px; max-height: min(78vh, 900px); overflow-y: auto; border: 1px solid var(--rule); border-radius: 8px; position: relative; }
.room { position: relative; }
.row { position: absolute; left: 0; right: 0; height: var(--row-height); padding: 7px 12px 7px 18px; border-bottom: 1px solid var(--rule); overflow: hidden; contain: strict; cursor: pointer; }
.row:hover { background: var(--panel); }
.row[aria-current] { background: var(--panel); box-shadow: inset 0 0 0 2px var(--accent); }
.edge { position: absolute; left: 0; top: 0; bottom: 0; width: 5px; }
.row .line { display: flex; gap: 12px; white-space: nowrap; align-items: baseline; }
.row .line a { font-weight: 600; }
.row .cause { margin-left: auto; color: var(--quiet); overflow: hidden; text-overflow: ellipsis; }
.row .badge .swatch { display: none; }
.text, .reply { white-space: nowrap; overflow: hidden; text-overflow: ellipsis; font: 12.5px/19px var(--mono); }
.reply .name { display: inline-block; width: 72px; color: var(--quiet); font: 12px/19px system-ui, "DejaVu Sans", sans-serif; }
.badge { display: inline-flex; align-items: center; gap: 6px; }

#call { border: 1px solid var(--rule); border-radius: 8px; padding: 12px 16px 16px; max-height: calc(min(78vh, 900px) + 38px); overflow: auto; }
#call h2 { font-size: 17px; font-variant-numeric: tabular-nums; }
#call nav { margin-left: auto; display: flex; gap: 2px; }
.way { padding: 2px 10px; border-radius: 6px; }
.way.off { color: var(--rule); }
.told { color: var(--quiet); margin-bottom: 4px; }
.part { border-top: 1px solid var(--rule); padding-top: 8px; margin-top: 10px; display: grid; grid-template-columns: 96px minmax(0, 1fr); }
.part > h3 { padding-top: 2px; }
pre { margin: 0; font: 13px/1.5 var(--mono); white-space: pre-wrap; overflow-wrap: anywhere; unicode-bidi: isolate; max-height: 40vh; overflow: auto; }
pre b { font-weight: 600; color: var(--accent); }
.pairs { margin: 0; }
.pairs > div { display: grid; grid-template-columns: 84px minmax(0, 1fr); }
.pairs dt { color: var(--quiet); }
.pairs dd { margin: 0; font-variant-numeric: tabular-nums; overflow-wrap: anywhere; }
pre + .pairs { margin-top: 4px; font: 13px/1.5 var(--mono); }
pre + .pairs > div { grid-template-columns: 40px minmax(0, 1fr); }
.whole { white-space: normal; font: 13px/1.5 var(--mono); display: grid; grid-template-columns: 84px minmax(0, 1fr); overflow: visible; padding: 1px 0; }
.whole h4 { font-family: system-ui, "DejaVu Sans", sans-serif; line-height: 20px; }
.whole p { overflow-wrap: anywhere; }
.whole .wide { grid-column: 2; }
.wide { overflow: auto; max-height: 46vh; }
table { border-collapse: collapse; font: 12.5px/1.5 var(--mono); margin: 2px 0; }
th { text-align: left; font-weight: 400; color: var(--quiet); }
th, td { padding: 1px 18px 1px 0; vertical-align: top; white-space: pre-wrap; overflow-wrap: anywhere; min-width: 3ch; }
th { white-space: nowrap; }
td.number, th.number { text-align: right; }
tr.alone td, tr.alone th { border-bottom: 1px solid var(--rule); }
.transaction { list-style: none; margin: 0; padding: 0; font: 12.5px/1.6 var(--mono); }
.transaction li { display: flex; gap: 10px; align-items: baseline; white-space: nowrap; overflow: hidden; }
.transaction li .swatch { align-self: center; }
.transaction a { min-width: 4ch; text-align: right; }
.transaction bdi { overflow: hidden; text-overflow: ellipsis; min-width: 0; }
.transaction li > .quiet { margin-left: auto; font-family: system-ui, "DejaVu Sans", sans-serif; }
.transaction li[aria-current] { background: var(--panel); font-weight: 600; }

@media (max-width: 959px) {
    body { padding: 14px 12px 32px; }
    #both { grid-template-columns: minmax(0, 1fr); }
    #list { max-height: 60vh; }
    #call { max-height: none; padding: 10px 12px 14px; }
    #facts { gap: 4px 20px; }
    #picture { padding: 8px 8px 8px 2px; }
    .part { display: block; }
    .part > h3 { padding: 0 0 2px; }
    #search { margin-left: 0; width: 100%; }
    .row { padding-left: 14px; }
    .row .line { gap: 8px; }
    .filters code { display: none; }
}
@media (max-width: 559px) {
    #list { --row-height: 112px; }
    .row .line { flex-wrap: wrap; gap: 0 8px; }
    .row .cause { margin: 0; width: 100%; }
}
@media print {
    body { padding: 0; max-width: none; font-size: 10pt; }
    .buttons, #search, #call nav, .key span:last-child { display: none; }
    #both { display: block; }
    #list { max-height: none; overflow: visible; border: 0; }
    .row { position: static; height: auto; contain: none; border-bottom: 1px solid var(--rule); padding: 4px 0 4px 12px; break-inside: avoid; }
    .row { position: relative; }
    .row .text, .row .reply { white-space: normal; overflow-wrap: anywhere; }
    #call { max-height: none; border: 0; padding: 12px 0; break-before: page; }
    .wide, pre { max-height: none; overflow: visible; }
    .swatch, .edge, mark, canvas { print-color-adjust: exact; -webkit-print-color-adjust: exact; }
}
</style>
</head>
<body>
<header>
<h1 id="title">A replay</h1>
<p id="summary"></p>
<dl id="facts"></dl>
<p id="notices" hidden></p>
</header>
<main>
<section id="filters" aria-label="Which calls are shown">
<div role="group" aria-labelledby="classes-name"><h2 id="classes-name">How they differ</h2><div id="classes" class="filters"></div></div>
<div role="group" aria-labelledby="causes-name"><h2 id="causes-name">Why</h2><div id="causes" class="filters"></div></div>
</section>
<section id="picture" aria-label="Picture of the calls">
<figure id="captured"></figure>
<figure id="replayed"></figure>
<p class="key" id="key"></p>
</section>
<div id="both">
<section id="calls" aria-labelledby="calls-name">
<div class="head"><h2 id="calls-name">Calls that differ</h2>
<span id="shown" role="status"></span>
<input id="search" type="search" placeholder="Search texts" aria-label="Search the texts of these calls" autocomplete="off" spellcheck="false">
</div>
<div id="list" role="list" aria-labelledby="calls-name" tabindex="0"></div>
</section>
<section id="call" aria-label="One call" tabindex="-1"></section>
</div>
<p id="said" class="aside" role="status"></p>
</main>
<script id="data" type="application/json">"##;

/// Behind them.
pub(crate) const END: &str = r##"</script>
<script>"use strict";
// The viewer of a replay. It reads the one JSON value of its page, which has the files of a capture and of a replay as texts,
// and shows them: how calls differ, a picture, the calls that differ, and one call. It asks nothing of any network, and puts no text
// of a capture anywhere but into text nodes.

// ---- The words of the files, and what they mean.

// Each class by its word, with a short name and a sentence; the number of a class is its place here and 1, and 0 stands for the same.
const CLASSES = [
    ["new-error", "refused now", "It is refused, and was not."],
    ["gone-error", "no longer refused", "It was refused, and is not."],
    ["mutated-error", "refused for another cause", "It was refused for one cause, and is for another."],
    ["rows-modified", "other number of rows written", "Another number of rows was written."],
    ["rows-fetched", "other number of rows read", "Another number of rows was read."],
    ["row-contents", "other rows", "As many rows were read, but others."],
    ["images", "other commit", "The commit wrote other rows or values."],
    ["shape", "other kind of reply", "The reply is of another kind."],
];
const CAUSES = [
    ["upgrade", "the server changed", "It met what it met in the capture, and was sent the same: the server answers otherwise."],
    ["timing", "it met something else", "Its session met something else, or another call was sent."],
];
const MODES = {
    off: "a call waits for the call before it in its session",
    scn: "a call waits for the commits that it saw",
    object: "a call waits for the commits that it saw and that wrote a table which it speaks of",
    order: "a call waits for every call before it",
    fence: "a commit waits for every call before it, any other call for the commits that it saw",
};
const FAULTS = {
    10: "the text is no statement", 11: "no such table", 12: "no such column, or one named twice", 13: "no such sequence",
    14: "no such service", 15: "parts that do not go together", 16: "no value for a bind", 20: "another session holds the row or key",
    21: "the key is there already", 22: "Null in a column that is not null", 23: "a number out of its column's range",
    24: "a text longer than its column", 25: "division by zero", 26: "overflow", 27: "only reading is allowed",
    28: "the session is not connected", 29: "connected already", 32: "a transaction is under way",
    33: "over 1,000 rows matched or changed", 34: "no such savepoint",
};
const KEYWORDS = new Set(("AND ASC BY COMMIT COUNT DELETE DESC DUAL FOR FROM INSERT INTO IS MAX MIN NEXTVAL NOT NULL ONLY OR ORDER READ " +
    "ROLLBACK ROWID SAVEPOINT SELECT SET SUM TO TRANSACTION UPDATE VALUES WHERE").split(" "));

const NUMBERS = new Intl.NumberFormat("en", { maximumFractionDigits: 6 });
const grouped = (number) => NUMBERS.format(number);
// `number` may be a BigInt.
const amount = (number, word) => `${grouped(number)} ${word}${number == 1 ? "" : "s"}`;

// ---- Reading.

// What the files say does not fit together.
class Unfit extends Error {}

function fits(holds, told) {
    if (!holds) throw new Unfit(told);
}

// Reads a text from its front to its end: 100,000 calls are too many to cut each line into pieces.
class Reader {
    constructor(text) {
        this.text = text;
        this.at = 0;
    }

    // A number, and over the one character behind it; 0 for a `-`.
    number() {
        const { text } = this;
        let at = text.charCodeAt(this.at) === 45 ? this.at + 1 : this.at, value = 0, digit;
        while ((digit = text.charCodeAt(at++) - 48) >= 0 && digit <= 9) value = value * 10 + digit;
        this.at = at;
        return value;
    }

    // What is left of the line, and over its end.
    line() {
        const from = this.at;
        this.at = this.lineEnd() + 1;
        return this.text.slice(from, this.at - 1);
    }

    lineEnd() {
        const end = this.text.indexOf("\n", this.at);
        return end < 0 ? this.text.length : end;
    }

    // Whether the line `end`, or none, is what is left: no other line begins with an `e`.
    isAtEnd() {
        return this.at >= this.text.length || this.text.charCodeAt(this.at) === 101;
    }
}

function readStart(text) {
    const start = { sequences: [], tables: [], rows: [], sessions: 0 };
    for (const line of text.split("\n")) {
        const fields = line.split(" ");
        if (fields[0] === "seq") start.sequences.push(fields[1]);
        else if (fields[0] === "table") start.tables.push({ name: fields[1], columns: [] });
        else if (fields[0] === "col") start.tables[start.tables.length - 1].columns.push(fields[1]);
        else if (fields[0] === "row") start.rows.push(fields);
        else if (fields[0] === "sessions") start.sessions = Number(fields[1]);
    }
    return start;
}

// The calls by stamp: columns of numbers, and of each call where it, its reply and its line's end stand in its session's file.
class Calls {
    constructor(count) {
        this.count = count;
        this.session = new Uint8Array(count);
        this.place = new Uint32Array(count);
        this.began = new Float64Array(count);
        this.ended = new Float64Array(count);
        this.seen = new Uint32Array(count);
        this.number = new Uint32Array(count);
        this.callAt = new Uint32Array(count);
        this.replyAt = new Uint32Array(count);
        this.endAt = new Uint32Array(count);
        this.texts = [];
    }

    // The stamps of a session's file.
    read(session, text) {
        const reader = new Reader(text), stamps = [];
        this.texts.push(text);
        for (reader.line(); !reader.isAtEnd(); reader.at++) {
            const stamp = reader.number();
            if (stamp >= this.count || this.endAt[stamp]) throw new Unfit(`call ${stamp} of session ${session} is none of the report's ${this.count}`);
            this.session[stamp] = session;
            this.place[stamp] = stamps.length;
            this.began[stamp] = reader.number();
            this.ended[stamp] = reader.number();
            this.seen[stamp] = reader.number();
            this.number[stamp] = reader.number();
            this.callAt[stamp] = reader.at;
            this.replyAt[stamp] = text.indexOf(" > ", reader.at) + 3;
            this.endAt[stamp] = reader.at = reader.lineEnd();
            stamps.push(stamp);
        }
        return Int32Array.from(stamps);
    }

    // The fields of a call: `connect`, `sql` or `disconnect` first.
    call(stamp) {
        return this.texts[this.session[stamp]].slice(this.callAt[stamp], this.replyAt[stamp] - 3).split(" ");
    }

    reply(stamp) {
        return this.texts[this.session[stamp]].slice(this.replyAt[stamp], this.endAt[stamp]);
    }
}

function readSessions(files, start, count) {
    const calls = new Calls(count), bySession = [];
    for (let session = 0; session < start.sessions; session++) {
        const name = `session-${String(session).padStart(3, "0")}.cap`;
        fits(files[name] !== undefined, `${name} is missing`);
        bySession.push(calls.read(session, files[name]));
    }
    fits(calls.endAt.indexOf(0) < 0, "the capture has fewer calls than the report");
    return [calls, bySession];
}

// The journal: of each event its call; of each call the events of its start and its answer, its pause, where its reply stands, and which
// call was answered last before it started.
class Journal {
    constructor(text, count) {
        this.text = text;
        this.order = new Int32Array(2 * count);
        this.started = new Int32Array(count).fill(-1);
        this.answered = new Int32Array(count).fill(-1);
        this.pause = new Float64Array(count);
        this.after = new Int32Array(count).fill(-1);
        this.replyAt = new Uint32Array(count);
        this.endAt = new Uint32Array(count);
        const reader = new Reader(text);
        this.mode = reader.line().split(" ")[2];
        let last = -1, event = 0;
        for (; !reader.isAtEnd(); event++) last = this.read(reader, event, last);
        fits(event === 2 * count, `the journal has ${event} events, not two for each of ${count} calls`);
        fits(this.started.indexOf(-1) < 0 && this.answered.indexOf(-1) < 0, "the journal does not answer each call");
    }

    // Reads an event; gives the call that was answered last.
    read(reader, event, last) {
        const starts = this.text[reader.at] === "s";
        reader.at += 2;
        const stamp = reader.number();
        if (stamp >= this.started.length || event >= this.order.length) throw new Unfit(`the journal has an event ${event} of call ${stamp}`);
        this.order[event] = stamp;
        if (starts) {
            this.started[stamp] = event;
            this.pause[stamp] = reader.number();
            this.after[stamp] = last;
            return last;
        }
        this.answered[stamp] = event;
        this.replyAt[stamp] = reader.at;
        this.endAt[stamp] = reader.lineEnd();
        reader.at = this.endAt[stamp] + 1;
        return stamp;
    }

    reply(stamp) {
        return this.text.slice(this.replyAt[stamp], this.endAt[stamp]);
    }
}

function readReport(text) {
    const reader = new Reader(text), words = new Map(CLASSES.map((words, place) => [words[0], place + 1]));
    const count = () => Number(reader.line().split(" ")[1]);
    reader.line();
    const calls = count(), same = count(), counts = CLASSES.map(count), classOf = new Uint8Array(calls), stamps = [];
    while (!reader.isAtEnd()) {
        const stamp = reader.number();
        reader.number();
        reader.number();
        classOf[stamp] = words.get(reader.line());
        if (!classOf[stamp]) throw new Unfit(`the report has a line of call ${stamp}`);
        stamps.push(stamp);
    }
    fits(stamps.length === calls - same, "the report's counts are not those of its lines");
    return { calls, counts, classOf, stamps };
}

// The cause of each call, 0 where none is known; `null` where there is no such file.
function readCauses(text, count) {
    if (text === undefined) return null;
    const reader = new Reader(text), causeOf = new Uint8Array(count), words = new Map(CAUSES.map((words, place) => [words[0], place + 1]));
    for (reader.line(); !reader.isAtEnd();) {
        const stamp = reader.number();
        causeOf[stamp] = words.get(reader.line());
        if (!causeOf[stamp]) throw new Unfit(`causes.csv has a line of call ${stamp}`);
    }
    return causeOf;
}

// The reads that are sure to answer as captured; `null` where there is no such file.
function readFence(text) {
    return text === undefined ? null : new Set(text.split("\n").slice(1, -2).map(Number));
}

// All that the page tells.
class Replay {
    constructor(data) {
        const { captured, replayed } = data;
        for (const name of ["journal.txt", "report.txt"]) fits(replayed[name] !== undefined, `${name} is missing`);
        fits(captured["start.cap"] !== undefined, "start.cap is missing");
        this.texts = new Map();
        this.capture = this.decoded(data.capture);
        this.out = this.decoded(data.out);
        this.start = readStart(captured["start.cap"]);
        this.report = readReport(replayed["report.txt"]);
        this.count = this.report.calls;
        [this.calls, this.bySession] = readSessions(captured, this.start, this.count);
        this.journal = new Journal(replayed["journal.txt"], this.count);
        this.causeOf = readCauses(replayed["causes.csv"], this.count);
        this.sure = readFence(replayed["fence.txt"]);
        this.commits = this.commitsByNumber();
        this.pairs = null;
    }

    commitsByNumber() {
        const commits = [];
        for (let stamp = 0; stamp < this.count; stamp++) if (this.calls.number[stamp]) commits.push(stamp);
        return commits;
    }

    reply(stamp) {
        return this.journal.reply(stamp);
    }

    // The text of a call as a person reads it.
    text(stamp) {
        const [word, text] = this.calls.call(stamp);
        if (word === "disconnect") return "disconnect";
        return word === "connect" ? `connect ${this.decoded(text)}` : this.decoded(text);
    }

    // What a text of the formats stands for.
    decoded(text) {
        let known = this.texts.get(text);
        if (known === undefined) this.texts.set(text, known = decodeURIComponent(text.slice(1)));
        return known;
    }

    causeOfCall(stamp) {
        return this.causeOf === null ? 0 : this.causeOf[stamp];
    }
}

// ---- Values and replies.

// The values between brackets, as their texts.
function valuesIn(text) {
    return text === "[]" ? [] : text.slice(1, -1).split(",");
}

// A reply: what came, what was drawn, which row was made. Rows are texts of values; images have a row, a table and the text of its values. The
// number of a count or a fault is a text, since a count of 64 bits is no exact number here.
function readReply(text) {
    const fields = text.split(" "), made = fields.pop(), draws = fields.pop(), [kind, what] = fields;
    const reply = { kind, draws: valuesIn(draws), made: made === "-" ? null : made, rows: [], images: [], number: "" };
    if (kind === "rows") reply.rows = what === "-" ? [] : what.slice(1, -1).split("][").map((row) => `[${row}]`);
    else if (kind === "committed") reply.images = what === "-" ? [] : what.split(";").map(readImage);
    else if (what !== undefined) reply.number = what;
    return reply;
}

function readImage(text) {
    const [row, table, values] = text.split(":");
    return { row: `r${row}`, table: Number(table), values: values === "gone" ? null : values };
}

const isId = (value) => value[0] === "r" || value[0] === "d";
const idsIn = (text) => text.match(/(?<=[[,])(r\d+|d\d+\.\d+)/g) || [];

// A value as a person reads it.
function shownValue(value) {
    if (value === "-") return "null";
    if (value[0] === "i") return value.slice(1);
    if (value[0] === "r") return `row ${value.slice(1)}`;
    if (value[0] === "t") return `'${replay.decoded(value).replaceAll("'", "''")}'`;
    const [sequence, drawn] = value.slice(1).split(".");
    return `${replay.start.sequences[sequence] ?? `sequence ${sequence}`} ${drawn}`;
}

const tableName = (table) => replay.start.tables[table]?.name ?? `table ${table}`;

// ---- Ids: what stands for which.

// Of each captured id that was learnt or stands in the start its image, the event that taught it, and the call of that event.
function learntPairs() {
    if (replay.pairs !== null) return replay.pairs;
    const { start, journal, calls } = replay, images = new Map(), taken = new Set();
    const learn = (id, image, event, stamp) => {
        if (images.has(id) || taken.has(image)) return;
        images.set(id, { image, event, stamp });
        taken.add(image);
    };
    for (const row of start.rows) for (const id of [`r${row[1]}`, ...idsIn(row[3])]) learn(id, id, -1, -1);
    for (let event = 0; event < journal.order.length; event++) {
        const stamp = journal.order[event];
        if (journal.answered[stamp] !== event) continue;
        const was = calls.reply(stamp), now = replay.reply(stamp);
        if (was.endsWith(" [] -") || now.endsWith(" [] -")) continue;
        for (const [id, image] of newPairs(readReply(was), readReply(now))) learn(id, image, event, stamp);
    }
    return replay.pairs = images;
}

// Draws at one place and from one sequence, and then the rows that were made.
function newPairs(was, now) {
    const sequence = (draw) => draw.split(".")[0];
    const pairs = was.draws.map((draw, place) => [draw, now.draws[place]]);
    const fitting = pairs.filter(([draw, other]) => other !== undefined && sequence(draw) === sequence(other));
    return was.made !== null && now.made !== null ? [...fitting, [was.made, now.made]] : fitting;
}

// What stands for an id once so many events are past; `null` where nothing does.
function imageOf(id, event) {
    const known = learntPairs().get(id);
    return known !== undefined && known.event < event ? known.image : null;
}

// Values with each id's image in its place; `null` where one has none.
function imagedValues(text, event) {
    const ids = idsIn(text);
    if (ids.length === 0) return text;
    if (ids.some((id) => imageOf(id, event) === null)) return null;
    return text.replace(/(?<=[[,])(r\d+|d\d+\.\d+)/g, (id) => imageOf(id, event));
}

// ---- What differs in two replies.

// Both replies of a call as two sides: each has its reply and the other one, whether they differ and are of two kinds, the places of the rows
// or images that have no partner in the other, and what its values and the other's are compared by: captured ids by their images
// just after the answer.
function comparison(stamp) {
    const was = readReply(replay.calls.reply(stamp)), now = readReply(replay.reply(stamp)), event = replay.journal.answered[stamp] + 1;
    const differs = replay.report.classOf[stamp] !== 0, isApart = differs && was.kind !== now.kind;
    const [wasAlone, nowAlone] = differs && !isApart ? unpaired(was, now, event) : [[], []];
    const byMap = (value) => isId(value) ? imageOf(value, event) : value, itself = (value) => value;
    return {
        captured: { reply: was, other: now, differs, isApart, alone: wasAlone, otherAlone: nowAlone, image: byMap, otherImage: itself },
        replayed: { reply: now, other: was, differs, isApart, alone: nowAlone, otherAlone: wasAlone, image: itself, otherImage: byMap },
    };
}

function unpaired(was, now, event) {
    const [wasKeys, nowKeys] = was.kind === "rows"
        ? [was.rows.map((row) => imagedValues(row, event)), now.rows]
        : [was.images.map((image) => imagedImage(image, event)), now.images.map(imageKey)];
    return [withoutPartner(wasKeys, nowKeys), withoutPartner(nowKeys, wasKeys)];
}

const imageKey = (image) => `${image.row}:${image.table}:${image.values}`;

function imagedImage(image, event) {
    const row = imageOf(image.row, event), values = image.values === null ? "" : imagedValues(image.values, event);
    return row === null || values === null ? null : imageKey({ ...image, row, values: image.values && values });
}

// The places of those that are not among the others, each of which is a partner once.
function withoutPartner(keys, others) {
    const left = new Map();
    for (const key of others) left.set(key, (left.get(key) ?? 0) + 1);
    return keys.flatMap((key, place) => {
        const count = key === null ? 0 : left.get(key) ?? 0;
        if (count > 0) left.set(key, count - 1);
        return count > 0 ? [] : [place];
    });
}

// The values of a row or an image, each with whether it differs from the one at its place in another of the other side.
function markedValues(side, values, other) {
    const texts = valuesIn(values), others = other === undefined ? [] : valuesIn(other);
    return texts.map((text, place) => [text, others.length !== texts.length || side.image(text) !== side.otherImage(others[place])]);
}

const unmarkedValues = (values) => valuesIn(values).map((text) => [text, false]);

// A row's values: one without a partner is set beside the other side's in turn.
function markedRow(side, place) {
    const turn = side.alone.indexOf(place), row = side.reply.rows[place];
    return turn < 0 ? unmarkedValues(row) : markedValues(side, row, side.other.rows[side.otherAlone[turn]]);
}

// An image's values, `null` where the row is gone: one without a partner is set beside the other side's image of the same row, and is new
// where there is none.
function markedImage(side, place) {
    const { row, table, values } = side.reply.images[place], isAlone = side.alone.includes(place);
    if (!isAlone) return { values: values && unmarkedValues(values), isNew: false, isAlone };
    const other = side.other.images.find((one) => one.table === table && side.otherImage(one.row) === side.image(row));
    return { values: values && markedValues(side, values, other?.values ?? undefined), isNew: other === undefined, isAlone };
}

// ---- The tokens of a text, and what follows from them.

const TOKEN = /'(?:[^']|'')*'|:\d+|[A-Za-z][A-Za-z0-9_]*|\d+|<>|!=|<=|>=|[-(),.*+/=<>;]/g;

const tokensOf = (text) => Array.from(text.matchAll(TOKEN), (found) => ({ text: found[0], word: found[0].toUpperCase(), at: found.index }));

// The tokens of a call that was read as a statement, else none.
function statement(stamp) {
    const [word, text] = replay.calls.call(stamp);
    return word === "sql" && !replay.calls.reply(stamp).startsWith("refused 10 ") ? tokensOf(replay.decoded(text)) : [];
}

// The number of the table that a statement is on, or -1.
function tableNumber(tokens) {
    const first = tokens[0]?.word;
    const behind = { SELECT: "FROM", DELETE: "FROM", INSERT: "INTO", UPDATE: "UPDATE" }[first];
    const at = tokens.findIndex((token) => token.word === behind);
    const name = at < 0 ? undefined : tokens[at + 1]?.text.toLowerCase();
    return replay.start.tables.findIndex((table) => table.name === name);
}

const wrote = (stamp) => new Set(readReply(replay.calls.reply(stamp)).images.map((image) => image.table));

// Whether a call speaks of a table: a statement of its own one, a commit of those that it wrote, SET TRANSACTION READ ONLY of all.
function speaksOf(stamp) {
    const tokens = statement(stamp), table = tableNumber(tokens), written = replay.calls.number[stamp] ? wrote(stamp) : new Set();
    const all = tokens[0]?.word === "SET";
    return (other) => all || other === table || written.has(other);
}

// The calls whose answers a call waits for beside its session's call before it, ascending.
function required(stamp) {
    const { mode } = replay.journal, number = replay.calls.number[stamp];
    if (mode === "off") return [];
    if (mode === "order" || (mode === "fence" && number)) return Array.from({ length: stamp }, (_, other) => other);
    const seen = replay.commits.slice(0, replay.calls.seen[stamp]);
    if (mode !== "object") return seen;
    const speaks = speaksOf(stamp);
    return seen.filter((commit) => [...wrote(commit)].some(speaks));
}

// Whether a call ends its session's transaction, as it was captured.
function isEnd(stamp) {
    const reply = replay.calls.reply(stamp);
    if (/^(committed|disconnected|connected) /.test(reply)) return true;
    return reply.startsWith("rolledback ") && statement(stamp)[1]?.word !== "TO";
}

// The calls of a call's transaction, from the first behind the end before it to its own end.
function transaction(stamp) {
    const stamps = replay.bySession[replay.calls.session[stamp]];
    let first = replay.calls.place[stamp], last = first;
    while (first > 0 && !isEnd(stamps[first - 1])) first--;
    while (last + 1 < stamps.length && !isEnd(stamps[last])) last++;
    return stamps.slice(first, last + 1);
}

// What the values of a row are called: the columns of its table, or the items of its SELECT.
function headings(stamp, width) {
    const [word, text] = replay.calls.call(stamp), tokens = statement(stamp), columns = replay.start.tables[tableNumber(tokens)]?.columns;
    if (word !== "sql" || tokens[0]?.word !== "SELECT") return [];
    if (tokens[1]?.text === "*") return columns?.length === width ? columns : [];
    const items = [], decoded = replay.decoded(text);
    let depth = 0, from = tokens[1]?.at;
    for (const token of tokens.slice(1)) {
        depth += (token.text === "(") - (token.text === ")");
        if (depth === 0 && (token.text === "," || token.word === "FROM")) {
            items.push(decoded.slice(from, token.at).trim());
            from = token.at + 1;
        }
        if (token.word === "FROM") break;
    }
    return items.length === width ? items : [];
}

// ---- Building what is shown. Texts of a capture become text nodes alone.

function make(tag, attributes, ...children) {
    const element = document.createElement(tag);
    for (const [name, value] of Object.entries(attributes ?? {})) element.setAttribute(name, value);
    element.append(...children.flat(Infinity));
    return element;
}

// What a reader does not see, or what moves what he sees: controls, format characters, odd spaces, fillers, tags, private use, noncharacters.
const UNSEEN = new RegExp(String.raw`([\0-\x1f\x7f-\xa0\xad\u034f\u061c\u115f\u1160\u1680\u17b4\u17b5\u180b-\u180f\u2000-\u200f\u2028-\u202f\u205f-\u206f` +
    String.raw`\u2800\u3000\u3164\ufe00-\ufe0f\ufeff\uffa0\ufff0-\ufffb\u{1d173}-\u{1d17a}\ue000-\uf8ff\u{e0000}-\u{10ffff}\p{NChar}])`, "u");
const ESCAPES = { "\n": "\\n", "\r": "\\r", "\t": "\\t" };

const signOf = (character) => ESCAPES[character] ?? `\\u{${character.codePointAt(0).toString(16).toUpperCase()}}`;

// A text with signs in the place of what is not seen.
function spelled(text) {
    if (!UNSEEN.test(text)) return [text];
    return text.split(UNSEEN).map((piece, place) => place % 2 ? make("span", { class: "sign" }, signOf(piece)) : piece);
}

const quietly = (text) => make("span", { class: "quiet" }, text);
const marked = (text, differs) => differs ? make("mark", {}, spelled(text)) : spelled(text);

function link(stamp, text) {
    return make("a", { href: `#${stamp}`, class: "number" }, text ?? grouped(stamp));
}

function classBadge(kind) {
    const badge = kind === 0 ? make("span", { class: "badge same" }, "as captured")
        : make("span", { class: "badge", title: CLASSES[kind - 1][2] }, CLASSES[kind - 1][1]);
    badge.prepend(make("i", { class: `swatch c${kind}` }));
    return badge;
}

function causeWords(cause) {
    return cause === 0 ? [] : make("span", { class: "cause", title: CAUSES[cause - 1][2] }, CAUSES[cause - 1][1]);
}

// The rows and images that stand in a line, at most so many.
const SHOWN_IN_LINE = 4;

// A reply in one line, with what differs marked.
function replyLine(side) {
    return [outcomeWords(side), rowParts(side), imageParts(side), given(side.reply)];
}

// What came, without its rows or images.
function outcomeWords({ reply, other, differs, isApart }) {
    const told = (text, isOther) => marked(text, isApart || (differs && isOther)), count = reply.rows.length;
    switch (reply.kind) {
        case "rows": return told(count ? amount(count, "row") : "no row", count !== other.rows.length);
        case "count": return told(`${amount(BigInt(reply.number), "row")} written`, reply.number !== other.number);
        case "committed": return told(reply.images.length ? "committed" : "committed nothing", reply.images.length === 0);
        case "refused": return told(`refused: ${FAULTS[reply.number] ?? "unknown cause"} (${reply.number})`, reply.number !== other.number);
        case "rolledback": return told("rolled back", false);
        default: return told(reply.kind, false);
    }
}

function given({ draws, made }) {
    return [draws.length ? quietly(`, drew ${draws.map(shownValue).join(", ")}`) : "", made === null ? "" : quietly(`, made ${shownValue(made)}`)];
}

// What stands in a line of so many rows or images: those without a partner, or the first where each has one.
function lineOf(count, alone, part) {
    if (count === 0) return [];
    const places = alone.length ? alone.slice(0, SHOWN_IN_LINE) : Array.from({ length: Math.min(count, SHOWN_IN_LINE) }, (_, place) => place);
    const before = places[0] > 0 ? "\u2026 " : "", behind = places[places.length - 1] < count - 1 ? " \u2026" : "";
    return [": ", before, places.map((place, at) => [at ? ", " : "", part(place)]), behind];
}

function rowParts(side) {
    return lineOf(side.reply.rows.length, side.alone, (place) => ["(", joinedValues(markedRow(side, place)), ")"]);
}

const joinedValues = (values) => values.map(([text, differs], at) => [at ? ", " : "", marked(shownValue(text), differs)]);

function imageParts(side) {
    return lineOf(side.reply.images.length, side.alone, (place) => {
        const { values, isNew, isAlone } = markedImage(side, place), name = marked(imageName(side.reply.images[place]), isNew);
        return values === null ? [name, " ", marked("gone", isAlone)] : [name, " = (", joinedValues(values), ")"];
    });
}

const imageName = ({ table, row }) => `${tableName(table)} ${shownValue(row)}`;

// Microseconds, exact, in the unit that suits them or another number.
function moment(microseconds, suits = microseconds) {
    const [unit, name] = [[1e6, "s"], [1e3, "ms"]].find(([unit]) => suits >= unit * 2) ?? [1, "\u00b5s"];
    return `${grouped(microseconds / unit)} ${name}`;
}

// ---- The head and what is chosen there.

const chosen = { classes: new Set(), causes: new Set(), words: "" };

function showHead() {
    const { report, journal, sure } = replay, differing = report.stamps.length;
    byId("title").replaceChildren("Replay of ", make("bdi", {}, spelled(replay.capture)));
    document.title = byId("title").textContent;
    byId("summary").replaceChildren(differing === 0 ? "No call differs."
        : `${grouped(differing)} of ${amount(report.calls, "call")} differ${differing === 1 ? "s" : ""}, ${share(differing, report.calls)}.`);
    const facts = [
        ["Calls", grouped(report.calls)], ["Sessions", grouped(replay.start.sessions)], ["Commits", grouped(replay.commits.length)],
        ["Mode", [make("b", {}, journal.mode), quietly(` \u2013 ${MODES[journal.mode]}`)]],
        ["Output", make("bdi", {}, spelled(replay.out))],
    ];
    if (sure !== null) facts.splice(3, 0, ["Sure reads", [grouped(sure.size), quietly(" answer as captured, whatever the order of calls")]]);
    byId("facts").replaceChildren(...facts.map(([name, what]) => make("div", {}, make("dt", {}, name), make("dd", {}, what))));
}

function share(part, whole) {
    const hundredths = (part / whole) * 100;
    return hundredths < 0.1 ? "under 0.1\u202f%" : `${hundredths.toFixed(1)}\u202f%`;
}

// A button that chooses calls of one class or cause.
function filterButton(set, number, words, count, swatch) {
    const button = make("button", { type: "button", "aria-pressed": "false", title: words[2], "data-word": words[0] },
        swatch, make("span", {}, words[1]), make("code", {}, words[0]), make("b", {}, grouped(count)));
    button.addEventListener("click", () => {
        if (!set.delete(number)) set.add(number);
        button.setAttribute("aria-pressed", String(set.has(number)));
        showChosen();
    });
    return button;
}

function showFilters() {
    const { counts } = replay.report;
    const classes = CLASSES.flatMap((words, place) => counts[place] === 0 ? []
        : [filterButton(chosen.classes, place + 1, words, counts[place], make("i", { class: `swatch c${place + 1}` }))]);
    byId("classes").replaceChildren(...classes);
    const causes = replay.causeOf === null ? [] : CAUSES.flatMap((words, place) => {
        const count = replay.causeOf.reduce((sum, cause) => sum + (cause === place + 1), 0);
        return count === 0 ? [] : [filterButton(chosen.causes, place + 1, words, count, [])];
    });
    byId("causes").replaceChildren(...(replay.causeOf === null ? [quietly("not known: there is no causes.csv")] : causes));
    byId("filters").hidden = byId("search").hidden = byId("shown").hidden = classes.length === 0;
}

// The calls that differ and are chosen.
function chosenStamps() {
    const { classes, causes, words } = chosen, { classOf, stamps } = replay.report, wanted = words.toLowerCase();
    return stamps.filter((stamp) => (classes.size === 0 || classes.has(classOf[stamp])) &&
        (causes.size === 0 || causes.has(replay.causeOfCall(stamp))) && (wanted === "" || replay.text(stamp).toLowerCase().includes(wanted)));
}

function showChosen() {
    const stamps = chosenStamps(), all = replay.report.stamps.length;
    byId("shown").textContent = stamps.length === all ? grouped(all) : `${grouped(stamps.length)} of ${grouped(all)}`;
    list.show(stamps);
    rankCalls(stamps);
    for (const plot of plots) plot.ask();
}

// ---- The list of calls that differ. Only the rows that are in view are there.

const SPARE_ROWS = 6, PRINTED_ROWS = 1000;

class CallList {
    constructor(box) {
        this.box = box;
        this.room = make("div", { class: "room", role: "presentation" });
        this.stamps = [];
        this.rows = new Map();
        this.height = 1;
        this.isPrinted = false;
        box.replaceChildren(this.room);
        box.addEventListener("scroll", () => requestAnimationFrame(() => this.draw()));
        box.addEventListener("keydown", (event) => this.key(event));
        box.addEventListener("click", (event) => this.click(event));
    }

    // The place of a call in the list, or -1.
    placeOf(stamp) {
        const place = this.placeFrom(stamp);
        return this.stamps[place] === stamp ? place : -1;
    }

    // The place of the first call of the list with this stamp or a later one.
    placeFrom(stamp) {
        let low = 0, high = this.stamps.length;
        while (low < high) {
            const middle = (low + high) >> 1;
            if (this.stamps[middle] < stamp) low = middle + 1;
            else high = middle;
        }
        return low;
    }

    show(stamps) {
        this.stamps = stamps;
        this.height = parseFloat(getComputedStyle(this.box).getPropertyValue("--row-height"));
        this.isPrinted = false;
        this.rows.clear();
        const none = replay.report.stamps.length ? "No call is chosen." : "No call differs.";
        this.room.replaceChildren(...(stamps.length ? [] : [make("p", { class: "none" }, none)]));
        this.room.style.height = stamps.length ? `${stamps.length * this.height}px` : "";
        this.box.scrollTop = 0;
        this.draw();
    }

    draw() {
        if (this.isPrinted) return;
        const first = Math.max(0, Math.floor(this.box.scrollTop / this.height) - SPARE_ROWS);
        const last = Math.min(this.stamps.length, Math.ceil((this.box.scrollTop + this.box.clientHeight) / this.height) + SPARE_ROWS);
        for (const [place, row] of this.rows) {
            if (place >= first && place < last) continue;
            if (row.contains(document.activeElement)) this.box.focus({ preventScroll: true });
            row.remove();
            this.rows.delete(place);
        }
        let behind = null;
        for (let place = last - 1; place >= first; place--) {
            if (!this.rows.has(place)) {
                this.rows.set(place, this.row(place));
                this.room.insertBefore(this.rows.get(place), behind);
            }
            behind = this.rows.get(place);
        }
    }

    row(place) {
        const stamp = this.stamps[place], row = listRow(stamp);
        row.setAttribute("aria-posinset", String(place + 1));
        row.setAttribute("aria-setsize", String(this.stamps.length));
        row.style.top = `${place * this.height}px`;
        setCurrent(row, stamp === selected);
        return row;
    }

    // Marks the row of the selected call, and brings it into view where that is wanted.
    select(stamp, into) {
        for (const row of this.rows.values()) setCurrent(row, Number(row.dataset.stamp) === stamp);
        const place = this.placeOf(stamp);
        if (place < 0 || !into) return;
        const top = place * this.height, { scrollTop, clientHeight } = this.box;
        if (top < scrollTop || top + this.height > scrollTop + clientHeight) this.box.scrollTop = top - clientHeight / 3;
        this.draw();
    }

    // A click anywhere in a row chooses its call, unless it ends the choice of a text.
    click(event) {
        const row = event.target.closest("[data-stamp]");
        if (row !== null && event.target.closest("a") === null && getSelection().isCollapsed) location.hash = row.dataset.stamp;
    }

    key(event) {
        const steps = { ArrowDown: 1, ArrowUp: -1 }[event.key];
        if (steps === undefined || this.stamps.length === 0) return;
        event.preventDefault();
        const place = this.placeOf(selected);
        const next = Math.max(0, Math.min(this.stamps.length - 1, place < 0 ? 0 : place + steps));
        moveTo(this.stamps[next]);
        this.rows.get(next)?.querySelector("a").focus({ preventScroll: true });
    }

    // For paper the first rows stand one below the other.
    print() {
        const rows = this.stamps.slice(0, PRINTED_ROWS).map(listRow), left = this.stamps.length - rows.length;
        this.isPrinted = true;
        this.room.replaceChildren(...rows, ...(left > 0 ? [make("p", {}, `and ${amount(left, "more call")}`)] : []));
        this.room.style.height = "";
        this.rows.clear();
    }
}

function setCurrent(element, is) {
    if (is) element.setAttribute("aria-current", "true");
    else element.removeAttribute("aria-current");
}

function listRow(stamp) {
    const kind = replay.report.classOf[stamp], session = quietly(`session ${replay.calls.session[stamp]}`);
    const replies = Object.entries(comparison(stamp)).map(([name, side]) =>
        make("div", { class: "reply" }, make("span", { class: "name" }, name), make("bdi", {}, replyLine(side))));
    return make("div", { role: "listitem", class: "row", "data-stamp": stamp },
        make("i", { class: `edge c${kind}` }),
        make("div", { class: "line" }, link(stamp), session, classBadge(kind), causeWords(replay.causeOfCall(stamp))),
        make("div", { class: "text" }, make("bdi", {}, spelled(replay.text(stamp)))), replies);
}

// ---- One call.

let selected = -1;
const FEW_ROWS = 12, SHOWN_ROWS = 100, SHOWN_CALLS = 40, SHOWN_REQUIRED = 12, SHOWN_IDS = 60;

function showCall(stamp) {
    const { report } = replay, kind = report.classOf[stamp], cause = replay.causeOfCall(stamp);
    const told = kind === 0 ? [] : [CLASSES[kind - 1][2], cause ? ` ${CAUSES[cause - 1][2]}` : ""];
    if (replay.sure?.has(stamp)) told.push(" It is a read that is sure to answer as captured.");
    byId("call").replaceChildren(
        make("div", { class: "head" }, make("h2", {}, `Call ${grouped(stamp)}`), classBadge(kind), neighbours(stamp)),
        make("p", { class: "told" }, ...told), part("Text", callText(stamp)), part("Replies", replies(stamp)), part("When", when(stamp)),
        part("What it saw", sight(stamp)), part("Waits for", waits(stamp)), part("Transaction", transactionOf(stamp)),
        part("Ids", ids(stamp)));
    byId("call").scrollTop = 0;
    byId("said").textContent = `Call ${stamp}, session ${replay.calls.session[stamp]}, ${kind === 0 ? "as captured" : CLASSES[kind - 1][1]}`;
}

const part = (name, content) => make("section", { class: "part", "data-part": name }, make("h3", {}, name), make("div", {}, content));

// Ways to the calls that differ before and behind.
function neighbours(stamp) {
    const { stamps } = list, before = list.placeFrom(stamp), behind = list.placeFrom(stamp + 1);
    const way = (target, name, sign) => target === undefined ? make("span", { class: "way off" }, sign)
        : make("a", { class: "way", href: `#${target}`, "aria-label": name, title: `${name}: ${grouped(target)}` }, sign);
    return make("nav", { "aria-label": "Calls that differ" },
        way(stamps[before - 1], "The one before", "\u2190"), way(stamps[behind], "The next one", "\u2192"));
}

// The text with its words set apart, and its binds.
function callText(stamp) {
    const [word, text, binds] = replay.calls.call(stamp);
    if (word !== "sql") return make("pre", {}, make("b", {}, word), text === undefined ? "" : [" ", spelled(replay.decoded(text))]);
    const bound = valuesIn(binds).map((value, place) => [`:${place + 1}`, make("bdi", {}, spelled(shownValue(value)))]);
    return [make("pre", {}, sqlParts(replay.decoded(text))), bound.length ? pairs(bound) : []];
}

function sqlParts(text) {
    const parts = [];
    let at = 0;
    for (const token of tokensOf(text)) {
        if (!KEYWORDS.has(token.word)) continue;
        parts.push(broken(text.slice(at, token.at)), make("b", {}, token.text));
        at = token.at + token.text.length;
    }
    return [...parts, broken(text.slice(at))];
}

// A text in which a line really ends behind the sign of a line feed.
const broken = (text) => text.split("\n").map((line, at) => [at ? [make("span", { class: "sign" }, "\\n"), "\n"] : [], spelled(line)]);

// Both replies, one above the other.
function replies(stamp) {
    return Object.entries(comparison(stamp)).map(([name, side]) => make("div", { class: "reply whole" }, make("h4", {}, name),
        make("p", {}, make("bdi", {}, outcomeWords(side), imageCount(side.reply), given(side.reply))), replyTable(stamp, side)));
}

const imageCount = ({ images }) => images.length ? ` ${amount(images.length, "row")}` : "";

function replyTable(stamp, side) {
    const { rows, images } = side.reply, apart = new Set(side.alone);
    const line = (place) => make("tr", { class: apart.has(place) ? "alone" : "" }, rows.length ? rowCells(side, place) : imageCells(side, place));
    const count = rows.length + images.length, lines = tablePlaces(count, side.alone).map(line), first = rows.length ? valuesIn(rows[0]) : [];
    return count ? tableOf(headings(stamp, first.length).map((name, at) => [name, kindOf(first[at])]), lines, count) : [];
}

// The places that a table has, in turn; of many those without a partner come first.
function tablePlaces(count, alone) {
    const all = Array.from({ length: count }, (_, place) => place), apart = new Set(alone);
    return (count <= FEW_ROWS ? all : [...alone, ...all.filter((place) => !apart.has(place))]).slice(0, SHOWN_ROWS);
}

function tableOf(heads, lines, count = lines.length) {
    const cells = heads.map(([name, kind]) => make("th", { scope: "col", class: kind }, make("bdi", {}, spelled(name))));
    const head = cells.length ? make("thead", {}, make("tr", {}, cells)) : [], left = count - lines.length;
    return make("div", { class: "wide" }, make("table", {}, head, make("tbody", {}, lines)),
        left > 0 ? make("p", { class: "quiet" }, `and ${amount(left, "more row")}`) : []);
}

const kindOf = (text) => text[0] === "i" ? "number" : "";
const shownMarked = (text, differs) => make("bdi", {}, marked(shownValue(text), differs));

function rowCells(side, place) {
    return markedRow(side, place).map(([text, differs]) => make("td", { class: kindOf(text) }, shownMarked(text, differs)));
}

function imageCells(side, place) {
    const image = side.reply.images[place], { values, isNew, isAlone } = markedImage(side, place);
    const columns = replay.start.tables[image.table]?.columns ?? [], name = make("th", { scope: "row" }, marked(imageName(image), isNew));
    if (values === null) return [name, make("td", {}, marked("gone", isAlone))];
    return [name, values.map(([text, differs], at) => make("td", {}, quietly(`${columns[at] ?? at + 1} `), shownMarked(text, differs)))];
}

function when(stamp) {
    const { calls, journal } = replay, began = calls.began[stamp], took = calls.ended[stamp] - began, after = journal.after[stamp];
    const started = grouped(journal.started[stamp]), answered = grouped(journal.answered[stamp]), pause = moment(journal.pause[stamp]);
    const place = quietly(` \u2013 session ${calls.session[stamp]}, its call ${grouped(calls.place[stamp])}`);
    return pairs([
        ["captured", [`began at ${moment(began)}, took ${moment(took)}`, place]],
        ["replayed", `started as event ${started}, answered as event ${answered}, after a pause of ${pause}`],
        ["started", after < 0 ? "before any answer" : ["right after the answer to call ", link(after)]],
    ]);
}

const pairs = (rows) => make("dl", { class: "pairs" }, rows.map(([name, what]) => make("div", {}, make("dt", {}, name), make("dd", {}, what))));

// Which commits were made before the call, in the capture and in the replay.
function sight(stamp) {
    const { calls, commits, journal } = replay, seen = calls.seen[stamp], number = calls.number[stamp];
    const isBefore = (commit) => journal.answered[commit] < journal.answered[stamp];
    const found = commits.slice(0, seen).filter(isBefore).length, early = commits.slice(seen).filter(isBefore).length, missing = seen - found;
    const other = [missing ? `${grouped(missing)} of those it saw not yet` : "", early ? `${grouped(early)} that it had not seen` : ""];
    return pairs([
        ["captured", [seen ? [`${amount(seen, "commit")} before it, the last is call `, link(commits[seen - 1])] : "no commit before it",
            number ? `; it is commit ${grouped(number)} itself` : ""]],
        ["replayed", missing + early === 0 ? "the same commits before its answer"
            : `${amount(found + early, "commit")} before its answer: ${other.filter(Boolean).join(", ")}`],
    ]);
}

function waits(stamp) {
    const { journal, calls, bySession } = replay, stamps = required(stamp), place = calls.place[stamp];
    const before = place > 0 ? ["call ", link(bySession[calls.session[stamp]][place - 1])] : "nothing, it is the first";
    const links = stamps.slice(-SHOWN_REQUIRED).map((other, at) => [at ? ", " : stamps.length === 1 ? "call " : "calls ", link(other)]);
    const many = stamps.length > SHOWN_REQUIRED ? `${amount(stamps.length, "call")}, the last of them: ` : "";
    return pairs([["its session", before], [journal.mode, stamps.length ? [many, links] : "nothing more"]]);
}

function transactionOf(stamp) {
    const stamps = transaction(stamp), at = stamps.indexOf(stamp), first = Math.max(0, Math.min(at - SHOWN_CALLS / 2, stamps.length - SHOWN_CALLS));
    const some = stamps.slice(first, first + SHOWN_CALLS), left = stamps.length - some.length;
    return [make("ol", { class: "transaction", "aria-label": "Its transaction" }, Array.from(some, (other) => stepLine(other, other === stamp))),
        left > 0 ? make("p", { class: "quiet" }, `and ${amount(left, "more call")} of it`) : [],
        isEnd(stamps[stamps.length - 1]) ? [] : make("p", { class: "quiet" }, "It is not ended in the capture.")];
}

function stepLine(stamp, isCurrent) {
    const kind = replay.report.classOf[stamp], text = make("bdi", {}, spelled(replay.text(stamp)));
    const line = make("li", {}, make("i", { class: `swatch c${kind}` }), link(stamp), text, kind ? quietly(CLASSES[kind - 1][1]) : []);
    setCurrent(line, isCurrent);
    return line;
}

// The ids of a call and its captured reply, with what stands for them.
function ids(stamp) {
    const [word, , binds] = replay.calls.call(stamp), bound = word === "sql" ? idsIn(binds) : [];
    const { draws, made, rows, images } = readReply(replay.calls.reply(stamp));
    const told = [...draws, ...(made === null ? [] : [made]), ...rows.slice(0, SHOWN_IDS).flatMap(idsIn),
        ...images.slice(0, SHOWN_IDS).flatMap((image) => [image.row, ...idsIn(image.values ?? "")])];
    const all = [...new Set([...bound, ...told])].slice(0, SHOWN_IDS), heads = [["captured", ""], ["replayed", ""], ["known from", ""]];
    const event = replay.journal.answered[stamp];
    return all.length ? tableOf(heads, all.map((id) => idLine(id, event, bound.includes(id)))) : make("p", { class: "quiet" }, "none");
}

function idLine(id, event, bound) {
    const image = imageOf(id, event + 1), known = learntPairs().get(id), sent = bound && imageOf(id, event) === null;
    const from = image === null ? "" : known.stamp < 0 ? "the start" : ["call ", link(known.stamp)];
    return make("tr", {}, make("td", {}, shownValue(id)),
        make("td", {}, image === null ? make("mark", {}, "nothing") : marked(shownValue(image), image !== id)),
        make("td", {}, from, sent ? quietly(" sent as an id that no server knows") : ""));
}

// ---- The picture: a row for each session, above along the captured time, below along the replay's order.

// In pixels of the style: what is left of the rows, above and below them.
const GUTTER = 40, MARGIN = 4, AXIS = 22;
const plots = [];
let ranks = new Uint8Array(0);
let palette = {};

// What a call is drawn as: 1 the same, 2 one that is not chosen, and above that its class, the first class on top.
function rankCalls(stamps) {
    const { classOf } = replay.report;
    ranks = classOf.map((kind) => kind === 0 ? 1 : 2);
    for (const stamp of stamps) ranks[stamp] = 2 + CLASSES.length + 1 - classOf[stamp];
}

// The colours, as the style has them now.
function readPalette() {
    const style = getComputedStyle(document.documentElement), colour = (name) => style.getPropertyValue(name).trim();
    const bars = ["--lane", "--same", "--other", ...CLASSES.map((_, place) => `--c${CLASSES.length - place}`)].map(colour);
    const [text, quiet, rule, chosen] = ["--text", "--quiet", "--rule", "--accent"].map(colour);
    palette = { bars, pixels: Uint32Array.from(bars, pixelOf), text, quiet, rule, chosen };
}

// A colour `#rrggbb` as a pixel of an image.
function pixelOf(colour) {
    const [red, green, blue] = [1, 3, 5].map((at) => parseInt(colour.slice(at, at + 2), 16));
    return ((255 << 24) | (blue << 16) | (green << 8) | red) >>> 0;
}

class Plot {
    // `scale` has its name, where each call begins and ends, what a place along it is called, and whether waits are drawn.
    constructor(figure, scale) {
        this.scale = scale;
        this.canvas = make("canvas", { tabindex: "0", role: "application", "aria-roledescription": "picture", "aria-label": this.label() });
        this.context = this.canvas.getContext("2d");
        this.tip = make("div", { class: "tip", hidden: "" });
        this.plot = make("div", { class: "plot" }, this.canvas, this.tip);
        this.view = [scale.least, scale.most];
        this.asked = false;
        this.drawnWidth = 0;
        const buttons = make("span", { class: "buttons" }, this.button("Zoom out", "\u2212", () => this.zoom(2)),
            this.button("Zoom in", "+", () => this.zoom(0.5)), this.button("Show all", "all", () => this.look(scale.least, scale.most)));
        figure.replaceChildren(make("figcaption", {}, make("h2", {}, scale.name), quietly(scale.told), buttons), this.plot);
        this.listen();
    }

    button(name, sign, act) {
        const button = make("button", { type: "button", title: name, "aria-label": `${name}: ${this.scale.name}` }, sign);
        button.addEventListener("click", act);
        return button;
    }

    label() {
        const { calls, stamps } = replay.report;
        return `${this.scale.name}: ${amount(calls, "call")} of ${amount(replay.start.sessions, "session")}, ${grouped(stamps.length)} differ. ` +
            "Arrow keys go from call to call, plus and minus zoom, 0 shows all, n and p go to the next call that differs and to the one before.";
    }

    listen() {
        const { canvas } = this;
        canvas.addEventListener("wheel", (event) => this.wheel(event), { passive: false });
        canvas.addEventListener("keydown", (event) => this.key(event));
        canvas.addEventListener("pointerdown", (event) => {
            this.drag = { x: event.clientX, view: this.view, moved: false };
            canvas.setPointerCapture(event.pointerId);
        });
        canvas.addEventListener("pointermove", (event) => this.move(event));
        canvas.addEventListener("pointerup", (event) => this.lift(event));
        canvas.addEventListener("pointercancel", () => this.drag = undefined);
        canvas.addEventListener("pointerleave", () => this.tip.hidden = true);
        new ResizeObserver(() => {
            if (this.plot.clientWidth !== this.drawnWidth) this.ask();
        }).observe(this.plot);
    }

    // Draws before the next frame.
    ask() {
        if (this.asked) return;
        this.asked = true;
        requestAnimationFrame(() => {
            this.asked = false;
            this.draw();
        });
    }

    // Takes the size of the place: all numbers below are pixels of the canvas.
    fit() {
        const sessions = Math.max(1, replay.bySession.length), width = this.drawnWidth = this.plot.clientWidth;
        this.dot = Math.min(3, Math.max(1, Math.round(devicePixelRatio)));
        this.row = Math.max(6, Math.min(20, Math.floor(330 / sessions))) * this.dot;
        this.bar = this.row - (this.row > 8 * this.dot ? 3 : 1) * this.dot;
        this.left = GUTTER * this.dot;
        this.width = Math.max(1, width * this.dot - this.left);
        this.top = MARGIN * this.dot;
        this.height = sessions * this.row;
        const size = [this.left + this.width, this.top + this.height + AXIS * this.dot];
        if (this.canvas.width !== size[0] || this.canvas.height !== size[1]) [this.canvas.width, this.canvas.height] = size;
        if (this.image?.width !== this.width || this.image?.height !== this.height) {
            this.image = this.context.createImageData(this.width, this.height);
        }
        this.canvas.style.height = `${size[1] / this.dot}px`;
        this.unit = this.width / (this.view[1] - this.view[0]);
    }

    draw() {
        this.fit();
        this.context.clearRect(0, 0, this.canvas.width, this.canvas.height);
        this.bars();
        this.context.save();
        this.context.beginPath();
        this.context.rect(this.left, this.top - this.dot, this.width, this.height + this.dot);
        this.context.clip();
        if (this.scale.waits) this.waits();
        this.signs();
        this.choice();
        this.context.restore();
        this.axes();
    }

    x(value) {
        return this.left + (value - this.view[0]) * this.unit;
    }

    // The top of a session's row.
    y(session) {
        return this.top + session * this.row;
    }

    middle(stamp) {
        return this.y(replay.calls.session[stamp]) + this.bar / 2;
    }

    // Where a call begins within the width, as a whole pixel.
    begin(stamp) {
        return Math.max(0, Math.floor((this.scale.from[stamp] - this.view[0]) * this.unit));
    }

    // Where one that begins there ends: behind it at least, and a wide one leaves a gap.
    end(stamp, begin) {
        const end = Math.min(this.width, Math.ceil((this.scale.to[stamp] - this.view[0]) * this.unit));
        return Math.max(begin + 1, end - begin > 3 * this.dot ? end - this.dot : end);
    }

    extent(stamp) {
        const begin = this.begin(stamp);
        return [begin, this.end(stamp, begin)];
    }

    // The place in a session's calls of the first that ends at or behind a value.
    firstAt(session, value) {
        const stamps = replay.bySession[session], { to } = this.scale;
        let low = 0, high = stamps.length;
        while (low < high) {
            const middle = (low + high) >> 1;
            if (to[stamps[middle]] < value) low = middle + 1;
            else high = middle;
        }
        return low;
    }

    // The calls of a session that are in view.
    inView(session) {
        const stamps = replay.bySession[session], first = this.firstAt(session, this.view[0]);
        let last = first;
        while (last < stamps.length && this.scale.from[stamps[last]] <= this.view[1]) last++;
        return stamps.subarray(first, last);
    }

    // One line of pixels for each session; where many calls share a pixel the one of the highest rank has it.
    bars() {
        const pixels = new Uint32Array(this.image.data.buffer), ranked = new Uint8Array(this.width), line = new Uint32Array(this.width);
        pixels.fill(0);
        for (let session = 0; session < replay.bySession.length; session++) {
            ranked.fill(0);
            this.rank(session, ranked);
            for (let x = 0; x < this.width; x++) line[x] = palette.pixels[ranked[x]];
            for (let y = 0; y < this.bar; y++) pixels.set(line, (session * this.row + y) * this.width);
        }
        this.context.putImageData(this.image, this.left, this.top);
    }

    // Notes the highest rank in each pixel of a session's row.
    rank(session, ranked) {
        const stamps = this.inView(session);
        for (let at = 0; at < stamps.length; at++) {
            const stamp = stamps[at], rank = ranks[stamp], begin = this.begin(stamp), end = this.end(stamp, begin);
            for (let x = begin; x < end; x++) if (ranked[x] < rank) ranked[x] = rank;
        }
    }

    // Underlines commits where there is room, and writes what the calls are where there is more.
    signs() {
        const { context, dot } = this, { number } = replay.calls, under = this.row - this.bar - (this.row > 8 * dot ? dot : 0);
        context.font = `${10 * dot}px system-ui, sans-serif`;
        context.textBaseline = "middle";
        for (let session = 0; session < replay.bySession.length; session++) {
            const stamps = this.inView(session);
            if (stamps.length * 4 * dot > this.width) continue;
            for (const stamp of stamps) {
                const [begin, end] = this.extent(stamp), top = this.y(session);
                if (number[stamp]) {
                    context.fillStyle = palette.text;
                    context.fillRect(this.left + begin, top + this.bar, Math.max(end - begin, 2 * dot), under);
                }
                if (end - begin > 40 * dot && this.bar >= 10 * dot) this.word(stamp, begin, end, top);
            }
        }
    }

    word(stamp, begin, end, top) {
        const { context, dot } = this;
        context.save();
        context.beginPath();
        context.rect(this.left + begin, top, end - begin - 3 * dot, this.bar);
        context.clip();
        context.fillStyle = ranks[stamp] > 2 ? "#fff" : palette.text;
        context.fillText(replay.text(stamp).split(/\s/)[0].slice(0, 12), this.left + begin + 4 * dot, top + this.bar / 2 + dot / 2);
        context.restore();
    }

    // Lines from an answer to the starts right behind it, where each event has a pixel of the style.
    waits() {
        const { context, view } = this, { order, started, after } = replay.journal;
        const first = Math.max(0, Math.floor(view[0])), last = Math.min(order.length, Math.ceil(view[1]));
        if ((last - first) * this.dot > this.width) return;
        context.strokeStyle = palette.quiet;
        context.lineWidth = this.dot;
        context.globalAlpha = 0.6;
        context.beginPath();
        for (let event = first; event < last; event++) {
            const stamp = order[event];
            if (started[stamp] === event && after[stamp] >= 0) this.wait(after[stamp], stamp);
        }
        context.stroke();
        context.globalAlpha = 1;
    }

    wait(before, stamp) {
        this.context.moveTo(this.x(this.scale.to[before]) - this.dot, this.middle(before));
        this.context.lineTo(this.x(this.scale.from[stamp]), this.middle(stamp));
    }

    // The selected call: a frame, and in the replay the line from the answer that it came after.
    choice() {
        if (selected < 0) return;
        const { context, dot } = this, [begin, end] = this.extent(selected), top = this.y(replay.calls.session[selected]);
        if (this.scale.to[selected] < this.view[0] || this.scale.from[selected] > this.view[1]) return;
        context.strokeStyle = palette.chosen;
        context.lineWidth = 2 * dot;
        if (this.scale.waits && replay.journal.after[selected] >= 0) {
            context.beginPath();
            this.wait(replay.journal.after[selected], selected);
            context.stroke();
        }
        context.strokeRect(this.left + begin - dot, top, Math.max(end - begin, 3 * dot) + 2 * dot, this.bar);
        context.globalAlpha = 0.25;
        context.fillStyle = palette.chosen;
        context.fillRect(this.left + (begin + end) / 2 - dot / 2, this.top, dot, this.height);
        context.globalAlpha = 1;
    }

    axes() {
        const { context, dot } = this, sessions = replay.bySession.length, every = Math.ceil((12 * dot) / this.row);
        context.font = `${10 * dot}px system-ui, sans-serif`;
        context.textBaseline = "middle";
        context.fillStyle = palette.quiet;
        context.textAlign = "right";
        for (let session = 0; session < sessions; session += every) {
            context.fillText(String(session), this.left - 6 * dot, this.y(session) + this.bar / 2 + dot / 2);
        }
        const step = niceStep((this.view[1] - this.view[0]) / Math.max(2, this.width / (110 * dot)));
        context.textAlign = "left";
        for (let value = Math.ceil(this.view[0] / step) * step; value <= this.view[1]; value += step) {
            const x = Math.round(this.x(value)), bottom = this.top + this.height;
            context.fillStyle = palette.rule;
            context.fillRect(x, bottom, dot, 6 * dot);
            context.fillStyle = palette.quiet;
            if (x < this.left + this.width - 40 * dot) context.fillText(this.scale.label(value, this.view[1]), x + 4 * dot, bottom + 12 * dot);
        }
        context.fillStyle = palette.rule;
        context.fillRect(this.left, this.top + this.height, this.width, dot);
    }

    // Takes another view within the whole.
    look(from, to) {
        const { least, most } = this.scale, size = Math.min(most - least, Math.max(to - from, Math.min(4, most - least)));
        const begin = Math.max(least, Math.min(most - size, from));
        this.view = [begin, begin + size];
        this.ask();
    }

    zoom(factor, at) {
        const [from, to] = this.view, middle = at ?? (this.holds(selected) ? this.scale.from[selected] : (from + to) / 2);
        this.look(middle - (middle - from) * factor, middle + (to - middle) * factor);
    }

    holds(stamp) {
        return stamp >= 0 && this.scale.to[stamp] >= this.view[0] && this.scale.from[stamp] <= this.view[1];
    }

    // Brings a call into view.
    reveal(stamp) {
        const size = this.view[1] - this.view[0];
        if (!this.holds(stamp)) this.look(this.scale.from[stamp] - size / 2, this.scale.from[stamp] + size / 2);
        this.ask();
    }

    valueAt(event) {
        return this.view[0] + ((event.clientX - this.canvas.getBoundingClientRect().left) * this.dot - this.left) / this.unit;
    }

    wheel(event) {
        const [from, to] = this.view, sideways = event.shiftKey || Math.abs(event.deltaX) > Math.abs(event.deltaY);
        const whole = to - from >= this.scale.most - this.scale.least;
        if (whole && (sideways || event.deltaY > 0)) return;
        event.preventDefault();
        const moved = (event.shiftKey ? event.deltaY : event.deltaX) * this.dot / this.unit;
        if (sideways) this.look(from + moved, to + moved);
        else this.zoom(Math.exp(Math.max(-120, Math.min(120, event.deltaY)) / 300), this.valueAt(event));
    }

    move(event) {
        if (this.drag !== undefined && event.buttons) {
            const moved = (this.drag.x - event.clientX) * this.dot / this.unit;
            this.drag.moved ||= Math.abs(event.clientX - this.drag.x) > 4;
            if (this.drag.moved) this.look(this.drag.view[0] + moved, this.drag.view[1] + moved);
        }
        this.point(event);
    }

    lift(event) {
        const { drag } = this;
        this.drag = undefined;
        if (drag === undefined || drag.moved) return;
        const stamp = this.callAt(event);
        if (stamp >= 0) moveTo(stamp);
    }

    // The call at a place: of those within a few pixels the one of the highest rank, and then the nearest.
    callAt(event) {
        const box = this.canvas.getBoundingClientRect(), session = Math.floor(((event.clientY - box.top) * this.dot - this.top) / this.row);
        if (session < 0 || session >= replay.bySession.length) return -1;
        const value = this.valueAt(event), near = (4 * this.dot) / this.unit, stamps = replay.bySession[session], { from, to } = this.scale;
        let best = -1, order = Infinity;
        for (let at = this.firstAt(session, value - near); at < stamps.length && from[stamps[at]] <= value + near; at++) {
            const stamp = stamps[at], distance = Math.max(0, from[stamp] - value, value - to[stamp]) / near, mine = distance - 2 * ranks[stamp];
            if (mine < order) [best, order] = [stamp, mine];
        }
        return best;
    }

    point(event) {
        const stamp = this.callAt(event), { tip } = this;
        tip.hidden = stamp < 0;
        if (stamp < 0) return;
        const kind = replay.report.classOf[stamp], box = this.plot.getBoundingClientRect(), x = event.clientX - box.left;
        tip.replaceChildren(make("b", {}, `Call ${grouped(stamp)}`), quietly(` session ${replay.calls.session[stamp]}`), make("br"),
            make("bdi", {}, spelled(replay.text(stamp).slice(0, 80))), make("br"), classBadge(kind));
        tip.style.left = `${Math.max(0, Math.min(x + 12, box.width - tip.offsetWidth))}px`;
        tip.style.top = `${event.clientY - box.top + 16}px`;
    }

    key(event) {
        const act = {
            "+": () => this.zoom(0.5), "=": () => this.zoom(0.5), "-": () => this.zoom(2), 0: () => this.look(this.scale.least, this.scale.most),
            ArrowLeft: () => this.step(-1), ArrowRight: () => this.step(1), ArrowUp: () => this.across(-1), ArrowDown: () => this.across(1),
            Home: () => this.step(-Infinity), End: () => this.step(Infinity), Enter: () => byId("call").focus(),
        }[event.key];
        if (act === undefined || event.ctrlKey || event.metaKey || event.altKey) return;
        event.preventDefault();
        act();
    }

    // Along the session of the selected call.
    step(by) {
        if (selected < 0) return this.enter();
        const stamps = replay.bySession[replay.calls.session[selected]], place = replay.calls.place[selected] + by;
        return moveTo(stamps[Math.max(0, Math.min(stamps.length - 1, place))]);
    }

    // To the session above or below that has a call, at the same place along the scale.
    across(by) {
        if (selected < 0) return this.enter();
        for (let session = replay.calls.session[selected] + by; session >= 0 && session < replay.bySession.length; session += by) {
            const stamps = replay.bySession[session];
            if (stamps.length) return moveTo(stamps[Math.min(stamps.length - 1, this.firstAt(session, this.scale.from[selected]))]);
        }
        return undefined;
    }

    enter() {
        if (replay.count > 0) moveTo(replay.report.stamps[0] ?? 0);
    }
}

// The least of 1, 2 and 5 times a power of ten that is no less.
function niceStep(least) {
    const power = 10 ** Math.floor(Math.log10(Math.max(1, least)));
    return [1, 2, 5, 10].map((many) => many * power).find((step) => step >= least) ?? 10 * power;
}

function showPicture() {
    const { calls, journal, count } = replay, last = calls.ended.reduce((most, ended) => Math.max(most, ended), 0);
    const first = calls.began.reduce((least, began) => Math.min(least, began), Infinity);
    const timed = last > first, stamps = timed ? calls.began : calls.began.map((_, stamp) => stamp), place = (value) => grouped(value);
    readPalette();
    const told = "a row for each session, ", most = last + (last - first) / 200;
    const byTime = { told: `${told}along the time`, from: calls.began, to: calls.ended, least: first, most, label: moment };
    const byStamp = { told: `${told}by stamp, as all calls have one time`, from: stamps, to: stamps.map((stamp) => stamp + 0.8), least: 0, label: place };
    plots.push(new Plot(byId("captured"), { name: "Captured", waits: false, ...(timed ? byTime : { ...byStamp, most: Math.max(1, count) }) }));
    plots.push(new Plot(byId("replayed"), {
        name: "Replayed", waits: true, told: "in the order of starts and answers", label: place, from: journal.started,
        to: new Float64Array(journal.answered).map((event) => event + 0.5), least: 0, most: Math.max(1, 2 * count),
    }));
    showKey();
}

// What the signs of the picture mean.
function showKey() {
    const sign = (name, text) => make("span", {}, make("i", { class: name }), text);
    byId("key").replaceChildren(sign("swatch c0", "as captured"), sign("commit", "a commit that wrote"), sign("wait", "from an answer to the start right after it"),
        make("span", {}, "wheel, + and \u2212 zoom; arrows go from call to call, n and p to those that differ"));
}

// ---- From call to call.

const byId = (id) => document.getElementById(id);
let list;
let replay;

function select(stamp, into) {
    selected = stamp;
    list.select(stamp, into);
    showCall(stamp);
    for (const plot of plots) plot.reveal(stamp);
}

// Selects a call and notes it in the address, without a step to go back to.
function moveTo(stamp) {
    history.replaceState(null, "", `#${stamp}`);
    select(stamp, true);
}

function selectByAddress() {
    const stamp = /^#\d+$/.test(location.hash) ? Number(location.hash.slice(1)) : -1;
    if (stamp < 0 || stamp >= replay.count) return false;
    select(stamp, true);
    const top = byId("call").getBoundingClientRect().top;
    if (top < 0 || top > innerHeight / 2) byId("call").scrollIntoView();
    return true;
}

function nextDiffering(by) {
    const stamp = list.stamps[by > 0 ? list.placeFrom(selected + 1) : list.placeFrom(selected) - 1];
    if (stamp !== undefined) moveTo(stamp);
}

function key(event) {
    if (event.target.closest("input") !== null || event.ctrlKey || event.metaKey || event.altKey) return;
    const act = { n: () => nextDiffering(1), p: () => nextDiffering(-1), "/": () => byId("search").focus() }[event.key];
    if (act === undefined) return;
    event.preventDefault();
    act();
}

function listen() {
    let asked = 0;
    byId("search").addEventListener("input", (event) => {
        clearTimeout(asked);
        asked = setTimeout(() => {
            chosen.words = event.target.value;
            showChosen();
        }, 120);
    });
    addEventListener("hashchange", selectByAddress);
    addEventListener("keydown", key);
    matchMedia("(prefers-color-scheme: dark)").addEventListener("change", recolour);
    matchMedia("(max-width: 559px)").addEventListener("change", () => list.show(list.stamps));
    addEventListener("beforeprint", () => putOnPaper(true));
    addEventListener("afterprint", () => putOnPaper(false));
}

function recolour() {
    readPalette();
    for (const plot of plots) plot.ask();
}

// For paper the list is whole, and colours are those of a light page.
function putOnPaper(is) {
    document.documentElement.classList.toggle("paper", is);
    if (is) {
        list.print();
    } else {
        list.show(list.stamps);
        list.select(selected, true);
    }
    readPalette();
    for (const plot of plots) plot.draw();
}

function begin() {
    try {
        replay = new Replay(JSON.parse(byId("data").textContent));
    } catch (error) {
        byId("summary").textContent = error instanceof Unfit ? `These files do not go together: ${error.message}.` : "These files cannot be read.";
        document.querySelector("main").hidden = true;
        return;
    }
    list = new CallList(byId("list"));
    showHead();
    showFilters();
    showPicture();
    showChosen();
    listen();
    if (!selectByAddress() && replay.report.stamps.length) select(replay.report.stamps[0], false);
    if (selected < 0) byId("call").replaceChildren(make("p", { class: "none" }, "A click into the picture shows a call."));
    requestAnimationFrame(() => requestAnimationFrame(() => performance.mark("drawn")));
}

begin();
</script>
</body>
</html>
"##;
