//! What all pages begin and end with. Made by `scripts/frame write` from `web/check.html`.

/// The head, up to the style.
pub(crate) const HEAD: &str = r#"<!doctype html>
<html lang="en">
<head>
<meta charset="utf-8">
<meta http-equiv="Content-Security-Policy" content="default-src 'none'; script-src 'unsafe-inline'; style-src 'unsafe-inline'; worker-src blob:">
<meta name="viewport" content="width=device-width">
<title>ecma-check</title>
<style>
"#;

/// The elements that the script fills.
pub(crate) const BODY: &str = r#"</style>
</head>
<body>
<header>
  <h1 id="file">ecma-check</h1>
  <label>colors <select id="theme"><option value="">system<option>light<option>dark</select></label>
  <details id="keys"><summary>keys</summary><dl>
    <dt>F8, Shift F8<dd>next fault, fault before; in the text n and p too
    <dt>F2<dd>opens the tree to the cursor, and goes there; in the text Enter too
    <dt>arrows<dd>move the cursor; in the tree or the faults: move, open, close
    <dt>Enter<dd>goes to the text of a node or a fault
    <dt>c<dd>in the tree: copies the JSON of a node
    <dt>/<dd>search by kind or name; there Enter and Shift Enter go on
  </dl></details>
  <output id="state"></output>
</header>
<section id="told" aria-label="Faults">
  <ol id="list" role="listbox" tabindex="0" aria-label="Faults" hidden></ol>
  <button id="further" type="button" hidden></button>
  <p id="untold" hidden></p>
</section>
<main>
  <section id="text" class="source" role="region" aria-label="Source" tabindex="0"></section>
  <section id="side" aria-label="Tree">
    <div id="tools">
      <input id="search" type="search" placeholder="kind or name" aria-label="Search the tree by kind or name" autocomplete="off" spellcheck="false">
      <output id="hits"></output>
      <label><input id="follow" type="checkbox"> open to the cursor</label>
      <button id="copy" type="button" title="the JSON of the tree" disabled>copy all</button>
      <button id="copy-node" type="button" title="the JSON of the node at the cursor of the tree" disabled>copy node</button>
    </div>
    <p id="none" hidden></p>
    <div id="nodes" role="tree" tabindex="0" aria-label="Tree"></div>
  </section>
</main>
<footer id="path" aria-live="off"></footer>
<noscript>This page is drawn by its own script.</noscript>
"#;

/// What has the tree shown, and the end of a page.
pub(crate) const END: &str = r#"<script>
treeRead();
</script>
</body>
</html>
"#;
