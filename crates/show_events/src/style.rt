//! The fixed parts of a page: how it looks.

/// The page up to the end of its style.
pub(crate) const STYLE: &str = r#"<!DOCTYPE html>
<html lang="en">
<head>
<meta charset="utf-8">
<meta name="viewport" content="width=device-width, initial-scale=1">
<title>A recorded run</title>
<style>
:root {
  color-scheme: light dark;
  --ground: #ffffff; --text: #1b1f24; --dim: #59636e; --line: #d8dee4; --bar: #eef1f4;
  --chosen: #fff1c2; --found: #cfe3ff; --wake: #1a7f37; --spawn: #6e7781; --race: #b3121d;
  --l0: .22; --l1: .58; --l2: .35; --l3: .47; --vivid: .11;
}
@media (prefers-color-scheme: dark) {
  :root {
    --ground: #0f1419; --text: #e4e9ee; --dim: #9aa4ae; --line: #30363d; --bar: #1d242c;
    --chosen: #4a3d10; --found: #173a63; --wake: #57c27a; --spawn: #aab4be; --race: #ff8f87;
    --l0: .95; --l1: .65; --l2: .85; --l3: .75; --vivid: .10;
  }
}
* { box-sizing: border-box; }
html, body { height: 100%; margin: 0; }
body { display: flex; flex-direction: column; background: var(--ground); color: var(--text);
  font: 13px/1.4 system-ui, sans-serif; }
header { display: flex; flex-wrap: wrap; gap: 6px 12px; align-items: center; padding: 8px 12px;
  border-bottom: 1px solid var(--line); }
header h1 { font: 600 15px ui-monospace, monospace; margin: 0; }
header input { flex: 0 1 20em; font: inherit; padding: 3px 8px; color: inherit; background: var(--bar);
  border: 1px solid var(--line); border-radius: 4px; }
button { font: inherit; color: inherit; background: var(--bar); border: 1px solid var(--line);
  border-radius: 4px; padding: 2px 8px; cursor: pointer; }
#ends { display: flex; flex-wrap: wrap; gap: 6px; }
#ends button { font-family: ui-monospace, monospace; font-size: 12px; }
#ends .failed, .row.failed .words { color: var(--race); font-weight: 600; }
#ends .failed { border-color: var(--race); }
#part { flex-basis: 100%; margin: 0; }
#part:empty { display: none; }
#count, .dim { color: var(--dim); }
main { flex: 1; min-height: 0; display: flex; }
#over { flex: none; position: relative; border-right: 1px solid var(--line); cursor: pointer; touch-action: none; }
#over canvas { position: absolute; inset: 26px 0 0 0; }
#over b { position: absolute; top: 5px; font-size: 11px; text-align: center; overflow: hidden; }
#here { position: absolute; left: 0; right: 0; border: 1px solid var(--text); min-height: 4px; pointer-events: none; }
#here::before { content: ""; position: absolute; inset: 0; background: var(--text); opacity: .08; }
#zoom { position: absolute; bottom: 4px; right: 4px; display: flex; gap: 2px; }
#zoom button { padding: 0 5px; }
#view { flex: 1; min-width: 0; overflow: auto; position: relative; }
#lanes { position: sticky; top: 0; z-index: 3; height: 26px; background: var(--ground);
  border-bottom: 1px solid var(--line); }
#lanes b { position: absolute; top: 3px; }
#sheet { position: relative; }
#sheet svg { position: absolute; inset: 0; pointer-events: none; z-index: 2; }
.row { position: absolute; left: 0; right: 0; height: 20px; cursor: pointer; white-space: nowrap;
  font: 12px/20px ui-monospace, monospace; }
.row:hover { background: var(--bar); }
.row.found { background: var(--found); box-shadow: inset 4px 0 var(--text); }
.row.chosen { background: var(--chosen); outline: 1px solid var(--text); z-index: 1; }
.row i { position: sticky; left: 0; z-index: 1; display: inline-block; width: 62px; padding-right: 4px;
  text-align: right; color: var(--dim); background: var(--ground); font-style: normal; }
#sheet .row.chosen i { background: var(--chosen); color: var(--text); font-weight: 600; }
.row.racing i { color: var(--race); font-weight: 600; text-decoration: underline; }
.cell { position: absolute; top: 0; right: 0; display: flex; padding-left: 10px; }
.cell > * { unicode-bidi: isolate; direction: ltr; white-space: pre; overflow: hidden; text-overflow: ellipsis; }
.cell b { flex: none; padding-right: 1ch; }
.cell .words { flex: none; max-width: 80ch; padding-right: 1ch; }
.cell .name { flex: 0 1 auto; min-width: 3ch; }
.cell .spot { flex: none; }
.cell .name, .cell .spot { color: var(--dim); }
.bar { position: absolute; width: 6px; border-radius: 3px; opacity: .45; }
.lane { position: absolute; top: 0; bottom: 0; width: 1px; background: var(--line); }
path { fill: none; stroke-width: 1.5; opacity: .4; }
path.near { opacity: 1; stroke-width: 2; }
path.wakes { stroke: var(--wake); }
path.spawns { stroke: var(--spawn); stroke-dasharray: 1.5 2.5; }
path.races { stroke: var(--race); stroke-dasharray: 6 3; }
aside { flex: 0 0 300px; overflow: auto; border-left: 1px solid var(--line); padding: 10px 14px; }
aside h2 { font-size: 13px; margin: 0 0 6px; }
aside dl { margin: 0 0 10px; } aside dt { color: var(--dim); }
aside dd, aside pre { margin: 0 0 6px; font: 12px/1.4 ui-monospace, monospace; overflow-wrap: anywhere;
  unicode-bidi: isolate; direction: ltr; white-space: pre-wrap; }
aside button + h2, aside pre + h2 { margin-top: 12px; }
aside button { display: block; margin: 4px 0; max-width: 100%; overflow-wrap: anywhere; unicode-bidi: isolate;
  text-align: left; font-family: ui-monospace, monospace; }
#paper { display: none; }
@media (max-width: 900px) { aside { flex-basis: 210px; } }
@media print {
  :root { --ground: #fff; --text: #000; --dim: #555; --line: #ccc; --l0: .22; --l1: .58; --l2: .35; --l3: .47; }
  html, body { height: auto; } main, header input, header > button, #count { display: none; }
  #paper { display: table; border-collapse: collapse; width: 100%; font: 8pt/1.3 ui-monospace, monospace; }
  #paper tr { break-inside: avoid; } #paper thead { display: table-header-group; }
  #paper th, #paper td { text-align: left; vertical-align: top; padding: 0 4px; }
  #paper td { border-left: 2px solid transparent; overflow-wrap: anywhere; }
}
</style>
"#;

/// What stands before the data.
pub(crate) const BODY: &str = r#"</head>
<body>
<header>
<h1 id="call">A recorded run</h1>
<span id="ends"></span>
<input id="find" type="search" placeholder="Find words, places, lines  (/)" aria-label="Find">
<button id="back" title="The one before (Shift+Enter)">&uarr;</button>
<button id="next" title="The next one (Enter)">&darr;</button>
<span id="count"></span>
<p id="part" class="dim"></p>
</header>
<main>
<div id="over" title="The whole run, a column for each thread: wide where it ran, thin where it slept. The wheel zooms.">
<canvas id="map"></canvas><div id="here"></div>
<div id="zoom"><button id="in" title="Zoom in (+)">+</button>
<button id="out" title="Zoom out (-)">&minus;</button></div>
</div>
<div id="view" tabindex="0"><div id="lanes"></div><div id="sheet"></div></div>
<aside id="details"><p class="dim">Click an entry, or go up and down by the arrow keys.</p></aside>
</main>
<table id="paper"></table>
<noscript>This page draws the run by a script, which is in it.</noscript>
"#;
