//! The fixed parts of the page. Edit the files of `page/`, and let `tools/page_parts.py` write this one.

/// The policy of an open desk's page: its style and its one script are its own, and it asks its own desk alone.
pub const POLICY: &str =
    "default-src 'none'; style-src 'unsafe-inline'; img-src data:; script-src 'sha256-XRfavC3Kd4vrs8ZeNuy/OQZ26ZZC8JYEeCosauWwpwU='; connect-src 'self'";

/// The head of the page, up to its style.
pub(crate) const HEAD: &str = r##"<!doctype html>
<html lang="en">
<head>
<meta charset="utf-8">
<meta name="viewport" content="width=device-width">
<link rel="icon" href="data:,">
<title>Telecommand desk</title>
<style>
"##;

/// The style.
pub(crate) const STYLE: &str =
    r##"/* The wall screen, and below it the paper. Colours are those of Okabe and Ito, which the colour-blind can tell apart. */
:root {
  color-scheme: dark;
  --ground: #0b111b; --panel: #17202e; --line: #33415a; --text: #f2f5fa; --dim: #a9b6c9;
  --orange: #e69f00; --sky: #56b4e9; --blue: #0072b2; --purple: #cc79a7; --yellow: #f0e442; --green: #00a878; --vermilion: #d55e00;
  --red: #c4001a; --grey: #8c98a8;
}
* { box-sizing: border-box; margin: 0; padding: 0; }
body {
  display: grid; gap: 6px; padding: 6px; min-height: 100vh;
  grid-template: "heading heading moves" auto "tiles tiles moves" auto "link link moves" auto "urgent ways moves" auto "schedule ways moves" 1fr
    / fit-content(650px) minmax(0, 1fr) auto;
  background: var(--ground); color: var(--text);
  font: 13px/18px "DejaVu Sans", Verdana, "Segoe UI", "Helvetica Neue", Arial, sans-serif; font-variant-numeric: tabular-nums;
}
section { background: var(--panel); padding: 4px 10px; }
h2 { font-size: 15px; line-height: 20px; }
table { border-collapse: collapse; width: 100%; }
th { text-align: left; font-weight: normal; font-size: 11px; line-height: 14px; color: var(--dim); vertical-align: bottom; white-space: nowrap; }
td, th { padding: 0 8px 0 0; }
tbody tr { border-top: 1px solid var(--line); }
table:not(:has(tbody tr)) { display: none; }
em { font-style: normal; font-weight: bold; white-space: nowrap; }
.none { color: var(--dim); font-size: 16px; padding: 4px 0; }
.more { font-weight: bold; padding-top: 2px; }
.few .ways { font-size: 14px; line-height: 20px; }
.few .ways td { padding-top: 4px; padding-bottom: 4px; }
.few .schedule { font-size: 16px; line-height: 24px; }

/* (a) the heading */
header { grid-area: heading; display: flex; flex-wrap: wrap; gap: 0 16px; align-items: baseline; }
h1 { font-size: 24px; line-height: 34px; flex: 1; white-space: nowrap; }
header p { color: var(--dim); font-size: 13px; white-space: nowrap; }
#age { color: var(--text); font-weight: bold; font-size: 14px; margin-left: -10px; }
#silent { order: -1; flex: 0 0 100%; padding: 6px 12px; background: var(--red); color: #fff; font-size: 26px; line-height: 34px; font-weight: bold; white-space: normal; }
header b { color: var(--text); font-size: 14px; }
header .file { background: var(--text); color: var(--ground); font-weight: bold; font-size: 20px; padding: 2px 12px; }

/* (b) the tiles */
.tiles { grid-area: tiles; background: none; padding: 0; display: grid; gap: 6px; grid-template-columns: repeat(2, 1fr) 1.9fr repeat(4, 1fr) 1.5fr; }
.tiles h2 { display: none; }
.tile { background: var(--panel); border-left: 10px solid var(--grey); padding: 0 4px 3px 8px; }
.tile b { font-size: 40px; line-height: 42px; }
.tile i { font-style: normal; font-size: 22px; line-height: 40px; float: right; }
.tile p { font-size: 14px; line-height: 16px; font-weight: bold; }
.tile small { display: block; font-size: 11px; line-height: 13px; color: var(--dim); }
.wait { border-color: var(--orange); }
.ready { border-color: var(--sky); }
.way { border-image: linear-gradient(var(--blue) 33%, var(--purple) 33% 66%, var(--green) 66%) 1; }
.scheduled { border-color: var(--yellow); }
.doubt { background: var(--vermilion); border-image: repeating-linear-gradient(135deg, #000 0 5px, #fff 5px 10px) 10; }
.failed { background: var(--red); border-color: #fff; }
.completed { border-color: var(--green); }
.doubt, .failed, .doubt small, .failed small { color: #fff; font-weight: bold; }
.past { border-color: var(--red); }
.tile.zero { background: var(--panel); border-color: var(--line); border-image: none; color: #71809a; }
.tile.zero small { color: #71809a; }

/* (c) what is open */
.urgent { grid-area: urgent; min-width: 600px; overflow-wrap: break-word; }
.urgent td { vertical-align: top; }
.urgent td:first-child { border-left: 6px solid var(--line); padding-left: 6px; }
.urgent td:nth-child(2), .urgent td:nth-child(3), .urgent td:last-child { white-space: nowrap; }
.urgent td:last-child, .urgent th:last-child { text-align: right; padding-right: 0; }
.few .urgent { font-size: 14px; line-height: 20px; }
.few .urgent td, .urgent:not(:has(tbody tr:nth-child(11))) td { padding-top: 3px; padding-bottom: 3px; }
.urgent:not(:has(tbody tr:nth-child(11))) { font-size: 16px; line-height: 24px; }
.urgent .InDoubt { background: #5a2800; font-weight: bold; }
.urgent .InDoubt td:first-child { border-color: var(--vermilion); }
.urgent .FailedSince { background: #5c0012; font-weight: bold; }
.urgent .FailedSince td:first-child { border-color: #ff5c70; }
.urgent .LostReport { background: #4a1f38; font-weight: bold; }
.urgent .LostReport td:first-child { border-color: var(--purple); }
.urgent .Approval td:first-child { border-color: var(--orange); }
.urgent .StepDue td:first-child { border-color: var(--text); }
.urgent .Flying td:first-child { border-color: var(--blue); }
.urgent .Free td:first-child { border-color: var(--sky); }
.urgent .LockedForever td:first-child { border-color: #ff5c70; }
.urgent .LockedForever td:nth-child(4), .urgent .LockedForever td:nth-child(5) { font-weight: bold; }
.urgent .Activity td, .urgent .Locked td { color: var(--dim); }

/* (d) the link, and the schedule */
.link { grid-area: link; display: flex; gap: 2px 14px; align-items: center; }
.link h2 { color: var(--dim); }
.premise { font-size: 24px; line-height: 34px; font-weight: bold; padding: 0 10px; background: #00614a; white-space: nowrap; }
.broken .premise { background: var(--red); }
.closed .premise { background: none; }
dl { display: flex; flex-wrap: wrap; gap: 0 16px; }
dt { font-size: 11px; line-height: 13px; color: var(--dim); }
dd { font-size: 15px; line-height: 20px; white-space: nowrap; }
.Wait, .Lockout { color: #ffb000; font-weight: bold; }
.schedule { grid-area: schedule; }
.schedule ul { list-style: none; columns: 2; column-gap: 12px; }
.schedule li { break-inside: avoid; white-space: nowrap; border-top: 1px solid var(--line); }
.schedule li b { display: inline-block; min-width: 76px; }

/* (e) each open request's way */
.ways { grid-area: ways; }
.legend { display: flex; flex-wrap: wrap; gap: 0 12px; font-size: 11px; line-height: 15px; list-style: none; color: var(--dim); }
.legend svg { display: inline-block; width: 18px; height: 11px; vertical-align: -1px; margin-right: 3px; }
.ways td { white-space: nowrap; }
.ways td.bar, .ways th.bar { width: 100%; min-width: 200px; padding: 0 6px 0 0; }
.bar svg { display: block; width: 100%; height: 12px; overflow: visible; }
.few .bar svg { height: 16px; }
.bar svg.lines { height: 3px; }
.axis { position: relative; height: 28px; }
.axis b { position: absolute; bottom: 0; width: 6.4em; white-space: normal; font-size: 10px; line-height: 14px; font-weight: normal; }
.ways td.by { max-width: 76px; overflow: hidden; text-overflow: ellipsis; color: var(--dim); }
.few .ways td.by { max-width: 100px; }
.ways th:last-child { text-align: right; }
.ways td.place { font-weight: bold; }
.ways tr.Doubtful td.place { background: var(--vermilion); color: #fff; padding-left: 4px; }
#ticks { stroke: var(--grey); stroke-width: 1px; vector-effect: non-scaling-stroke; }
rect.Entered { fill: var(--orange); }
rect.Approved { fill: var(--sky); }
rect.Queued, rect.Sent { fill: var(--blue); }
rect.Riding, rect.Confirmed { fill: var(--purple); }
rect.Accepted, rect.Started { fill: var(--green); }
rect.Queued, rect.Riding, rect.Accepted { y: 3px; height: 4px; }
rect.Scheduled { fill: var(--yellow); }
rect.Doubtful { fill: url(#hatch); }

/* (f) the last moves */
.moves { grid-area: moves; font-size: 12px; line-height: 18px; }
.moves td { white-space: nowrap; padding-right: 6px; }
.moves .Doubtful td, .moves .Failed td { color: #ffa36b; }

.sign { display: none; }

@media (max-width: 1400px) {
  body { display: block; }
  body > * { margin-bottom: 8px; }
  .tiles { grid-template-columns: repeat(4, 1fr); }
}
@media (max-width: 700px) {
  header { display: block; }
  header p { white-space: normal; }
  #age { margin: 0; }
  .tiles { grid-template-columns: repeat(4, 1fr); gap: 4px; }
  .tile { border-left-width: 5px; padding: 0 2px 2px 4px; overflow-wrap: anywhere; }
  .tile b { font-size: 24px; line-height: 28px; }
  .tile i { font-size: 14px; line-height: 24px; }
  .tile p { font-size: 11px; line-height: 13px; }
  .tile small { display: none; }
  .urgent { min-width: 0; padding: 4px; }
  .urgent thead { display: none; }
  .urgent tbody tr { display: flex; flex-wrap: wrap; padding: 2px 0; }
  .urgent td:nth-child(1) { flex: 1 1 auto; }
  .urgent td:nth-child(4) { flex: 0 0 100%; }
  .urgent td { padding-left: 12px; }
  .urgent td:last-child { flex: 1; }
  .link { display: block; }
  .ways, .moves { overflow-x: auto; }
}

@media (min-width: 2500px) { body { zoom: 1.33; min-height: 75vh; } }
@media (min-width: 3800px) { body { zoom: 2; min-height: 50vh; } }

@page { size: landscape; margin: 12mm; @bottom-right { content: "Telecommand desk, page " counter(page) " of " counter(pages); font: 9px sans-serif; } }
@media print {
  :root { color-scheme: light; --ground: #fff; --panel: #fff; --line: #999; --text: #000; --dim: #333; }
  * { print-color-adjust: exact; -webkit-print-color-adjust: exact; }
  .urgent { min-width: 0; }
  #age, #silent { display: none; }
  body { display: block; font-size: 11px; line-height: 15px; padding: 0; min-height: 0; }
  section { padding: 0; margin-bottom: 14px; }
  .urgent, .urgent:not(:has(tbody tr:nth-child(11))), .few .ways, .few .schedule { font-size: 13px; line-height: 17px; }
  h2 { break-after: avoid; border-bottom: 2px solid #000; margin-bottom: 3px; }
  thead { display: table-header-group; }
  tr, li, .tile, .link, .schedule { break-inside: avoid; }
  .link { display: block; }
  .premise { display: inline-block; margin: 3px 0; }
  .tiles { grid-template-columns: repeat(4, 1fr); break-inside: avoid; }
  .tiles h2 { display: block; grid-column: 1 / -1; }
  .tile { outline: 1px solid #999; }
  .tile.zero, .tile.zero small { color: #666; }
  .doubt:not(.zero), .failed:not(.zero) { background: none; border-image: none; color: #000; }
  .doubt:not(.zero) small, .failed:not(.zero) small { color: #000; }
  .doubt:not(.zero) { border-color: #000; outline: 3px dashed #000; }
  .failed:not(.zero) { border-color: var(--red); outline: 3px solid var(--red); }
  .urgent tr.InDoubt, .urgent tr.FailedSince, .urgent tr.LostReport { background: #ffd9bf; }
  .premise { color: #fff; }
  .closed .premise { color: #000; }
  .ways td.by, .few .ways td.by { max-width: none; }
  .moves .Doubtful td, .moves .Failed td { color: #8f2f00; font-weight: bold; }
  rect { stroke: #000; stroke-width: .5px; vector-effect: non-scaling-stroke; }
  .Wait, .Lockout { color: #8f2f00; }
  .sign { display: flex; gap: 40px; background: none; break-inside: avoid; padding-top: 50px; }
  .sign p { flex: 1; border-top: 1px solid #000; padding-top: 3px; font-size: 13px; }
}
"##;

/// The policy of a page on which no script runs.
pub(crate) const STRICT: &str =
    r##"<meta http-equiv="Content-Security-Policy" content="default-src 'none'; style-src 'unsafe-inline'; img-src data:">
"##;

/// The end of the policy, the page's refresh if no script may run, and the start of its script.
pub(crate) const LIVE: &str = r##"">
<noscript><meta http-equiv="refresh" content="5"></noscript>
<script>
"##;

/// The script.
pub(crate) const SCRIPT: &str =
    r##"// Asks for the board again every 5 seconds and shows it in place of the last one. If none comes, the last one stays, below a red line that says since when.
(() => {
  const EVERY = 5, PATIENCE = 10;
  let answered = Date.now(), why = '', asking = false;

  const clock = (at) => new Date(at).toISOString().slice(11, 19);
  const span = (s) => s < 60 ? `${s} s` : s < 3600 ? `${Math.floor(s / 60)} min` : s < 86400 ? `${Math.floor(s / 3600)} h ${Math.floor(s % 3600 / 60)} min`
    : `${Math.floor(s / 86400)} d ${Math.floor(s % 86400 / 3600)} h`;
  const line = (id, text) => {
    const header = document.querySelector('header');
    if (!header) return;
    const it = document.getElementById(id) || header.appendChild(document.createElement('p'));
    it.id = id;
    it.textContent = text;
    it.hidden = !text;
  };

  // how old the last move is, and since when there is no new board, by the clock of this browser
  const tell = () => {
    const moved = document.getElementById('moved');
    const age = moved ? Math.floor(Date.now() / 1000) - Number(moved.dataset.at) : 0;
    line('age', !moved ? '' : age < 0 ? 'which is later than the clock here' : `${span(age)} ago`);
    const gone = Math.floor((Date.now() - answered) / 1000);
    const silent = why || gone > EVERY + PATIENCE ? why || 'no answer' : '';
    line('silent', silent && `NO BOARD since ${clock(answered)} UTC, ${span(gone)}: ${silent}. This is the last one.`);
  };

  const show = (text) => {
    const page = new DOMParser().parseFromString(text, 'text/html');
    if (page.title !== document.title || !page.querySelector('section.urgent')) return 'another page was answered';
    if (page.querySelector('style').textContent !== document.querySelector('style').textContent) location.reload();
    document.body.replaceWith(page.body);
    answered = Date.now();
    return '';
  };

  const ask = async () => {
    if (asking) return;
    asking = true;
    try {
      const answer = await fetch(location.href, { cache: 'no-store', signal: AbortSignal.timeout(PATIENCE * 1000) });
      why = answer.status === 200 ? show(await answer.text()) : `the answer was ${answer.status}`;
    } catch {
      why = 'no answer';
    }
    asking = false;
    tell();
  };

  document.addEventListener('DOMContentLoaded', tell);
  document.addEventListener('visibilitychange', ask);
  setInterval(tell, 1000);
  setInterval(ask, EVERY * 1000);
})();
"##;

/// Where the heading begins.
pub(crate) const HEADING: &str = r##"<header>
<h1>Telecommand desk</h1>
"##;

/// Where the tiles begin.
pub(crate) const TILES: &str = r##"<section class="tiles">
<h2>How many stand where</h2>
"##;

/// What the heading says of a file that nobody has open.
pub(crate) const CLOSED: &str = r##"<p class="file">closed file</p>
<p>no failed request is listed; each scheduled one counts as on board</p>
"##;

/// Where the table of what is open begins.
pub(crate) const URGENT: &str = r##"<section class="urgent">
<h2>What is open, most urgent first</h2>
<table>
<thead><tr><th>What</th><th>Name</th><th>Service</th><th>Waits for</th><th>By whom</th><th>For</th></tr></thead>
<tbody>
"##;

/// Where the on-board schedule begins.
pub(crate) const SCHEDULE: &str = r##"<section class="schedule">
<h2>On-board schedule</h2>
"##;

/// Where the ways begin, with their legend.
pub(crate) const WAYS: &str = r##"<section class="ways">
<h2>Each open request's way</h2>
<ul class="legend">
<li><svg viewBox="0 0 20 10"><rect class="Entered" width="20" height="10"/></svg>Entered</li>
<li><svg viewBox="0 0 20 10"><rect class="Approved" width="20" height="10"/></svg>Approved</li>
<li><svg viewBox="0 0 20 10"><rect class="Queued" width="20" height="10"/></svg>Queued</li>
<li><svg viewBox="0 0 20 10"><rect class="Sent" width="20" height="10"/></svg>Sent</li>
<li><svg viewBox="0 0 20 10"><rect class="Confirmed" width="20" height="10"/></svg>Confirmed</li>
<li><svg viewBox="0 0 20 10"><rect class="Riding" width="20" height="10"/></svg>Riding</li>
<li><svg viewBox="0 0 20 10"><rect class="Scheduled" width="20" height="10"/></svg>Scheduled</li>
<li><svg viewBox="0 0 20 10"><rect class="Accepted" width="20" height="10"/></svg>Accepted</li>
<li><svg viewBox="0 0 20 10"><rect class="Started" width="20" height="10"/></svg>Started</li>
<li><svg viewBox="0 0 20 10"><defs><pattern id="hatch" width="8" height="8" patternUnits="userSpaceOnUse" patternTransform="rotate(45)"><rect width="8" height="8" fill="#d55e00"/><rect width="3" height="8" fill="#000"/></pattern></defs><rect class="Doubtful" width="20" height="10"/></svg>Doubtful (hatched)</li>
<li>&#9650; critical: two approve</li>
<li>time is squeezed where nothing moved</li>
</ul>
"##;

/// Where the table of the ways begins, up to its axis.
pub(crate) const WAYS_HEAD: &str = r##"<table>
<thead><tr><th>No.</th><th>Name</th><th>Service</th><th></th><th>Author</th><th>Stack</th><th class="bar"><div class="axis">
"##;

/// Where the table of the last moves begins.
pub(crate) const MOVES: &str = r##"<section class="moves">
<h2>Last moves</h2>
<table>
<thead><tr><th>Move</th><th>UTC</th><th>Person</th><th>Request</th><th>From</th><th>To</th><th>Why</th></tr></thead>
<tbody>
"##;

/// The foot of the page.
pub(crate) const FOOT: &str = r##"<section class="sign">
<p>Handed over by</p>
<p>Taken over by</p>
</section>
</body>
</html>
"##;
